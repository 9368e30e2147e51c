//! Predicates and functions with their typed variables, and private blocks of them.

ghost use Rattle.std.specs.Prelude.{◌≡◌, false, true, IfOk};
ghost use Rattle.mp_sexp.specs.Node.{node_of, nodes_in};
ghost use Rattle.mp_forms.specs.Reading.{both};
ghost use Rattle.mp_factor.specs.Found.{found_in};
ghost use Rattle.mp_forms.specs.Rules.Typed.{typed_rule, variables};
ghost use Rattle.mp_forms.specs.Rules.Signatures.{declared_predicate, declared_function, is_no_signature, signature_of, signature_rule, signatures};

use crate::found::{Form, Found, expect, pair, shape_fault};
use crate::trees::{has_head, is_fixed_tree, is_keyword, is_list_tree, members, place};
use crate::typed_values::{Listing, VARIABLES, WithBlocks, read_typed};
use crate::word::NameForm;
use mp_forms::{Signature, SignatureList, Word};
use mp_list::OutOfMemory;
use mp_sexp::{Place, Tree};
use std::alloc::Global;

/// A name that a predicate may have.
#[derive(Clone, Copy)]
pub struct DeclaredPredicate;

#[tactic(auto, unfolding(mp_forms::specs::Rules::Signatures::declared_predicate))]
impl Form<Word> for DeclaredPredicate {
    ghost rule = { λ form node. declared_predicate node };

    fn read(&self, alloc: Global, tree: &Tree) -> Result<Found<Word>, OutOfMemory> {
        if is_fixed_tree(tree) {
            Ok(shape_fault(alloc, place(tree)))
        } else {
            NameForm.read(alloc, tree)
        }
    }
}

/// A name that a function may have.
#[derive(Clone, Copy)]
pub struct DeclaredFunction;

#[tactic(auto, unfolding(mp_forms::specs::Rules::Signatures::declared_function))]
impl Form<Word> for DeclaredFunction {
    ghost rule = { λ form node. declared_function node };

    fn read(&self, alloc: Global, tree: &Tree) -> Result<Found<Word>, OutOfMemory> {
        if is_keyword(tree, b"total-cost") {
            NameForm.read(alloc, tree)
        } else {
            DeclaredPredicate.read(alloc, tree)
        }
    }
}

/// Whether a tree is no signature: a word or a block.
fn is_not_a_signature(tree: &Tree) -> bool
    ensures { result ≡ is_no_signature (node_of tree.now) }
{
    !is_list_tree(tree) || has_head(tree, b":private")
}

/// The signatures of a list without blocks.
#[derive(Clone, Copy)]
pub struct Signatures<N> {
    /// Whether `- number` may stand behind one.
    pub takes_number: bool,
    /// Whether they stand in a private block.
    pub private: bool,
    pub name: N,
}

/// A signature with this first member and these behind it, in the list at this place. Refuses only for want of memory.
#[tactic(auto, using(crate::proofs::FoundLemmas::found_both, crate::proofs::FoundLemmas::pair_said))]
fn read_members<N: Form<Word>>(
    alloc: Global,
    list: &Signatures<N>,
    whole: Place,
    head: &Tree,
    params: &[Tree],
) -> Result<Found<Signature>, OutOfMemory>
    ensures { IfOk result (λ found. found ≡ found_in (both (signature_of list.now.private)
        (N.rule list.now.name (node_of head.now)) (typed_rule variables whole (nodes_in params.now)))) }
{
    let word = list.name.read(alloc, head)?;
    let signature = pair(word, read_typed(alloc, &VARIABLES, whole, params)?);
    let private = list.private;
    Ok(signature.map(|(word, params)| Signature {
        word,
        params,
        private,
    }))
}

/// A name with typed variables. Refuses only for want of memory.
#[tactic(auto, unfolding(mp_forms::specs::Rules::Signatures::signature_rule))]
fn read_signature<N: Form<Word>>(
    alloc: Global,
    list: &Signatures<N>,
    tree: &Tree,
) -> Result<Found<Signature>, OutOfMemory>
    ensures { IfOk result (λ found. found
        ≡ found_in (signature_rule list.now.private (N.rule list.now.name) (node_of tree.now))) }
{
    match members(tree) {
        [] => Ok(shape_fault(alloc, place(tree))),
        [head, params @ ..] => read_members(alloc, list, place(tree), head, params),
    }
}

impl<N: Form<Word>> Listing<Signature, ()> for Signatures<N> {
    ghost listing = { λ list. signatures list.takes_number list.private (N.rule list.name) };

    fn read_item(
        &self,
        alloc: Global,
        _item_type: &(),
        tree: &Tree,
    ) -> Result<Found<Signature>, OutOfMemory> {
        read_signature(alloc, self, tree)
    }

    fn takes_type(&self) -> bool {
        self.takes_number
    }

    fn read_type(&self, alloc: Global, tree: &Tree) -> Result<Found<()>, OutOfMemory> {
        Ok(expect(alloc, b"number", tree))
    }

    fn untyped(&self, _alloc: Global) {}

    fn is_block(&self, tree: &Tree) -> bool {
        is_not_a_signature(tree)
    }

    fn read_block(&self, alloc: Global, tree: &Tree) -> Result<Found<SignatureList>, OutOfMemory> {
        Ok(shape_fault(alloc, place(tree)))
    }
}

/// The signatures of a list that may hold private blocks.
pub fn with_private<N: Copy>(takes_number: bool, name: N) -> WithBlocks<Signatures<N>>
    ensures { result ≡ record {
      public = record { takes_number = takes_number; private = false; name = name };
      private = record { takes_number = takes_number; private = true; name = name };
    } }
{
    WithBlocks {
        public: Signatures {
            takes_number,
            private: false,
            name,
        },
        private: Signatures {
            takes_number,
            private: true,
            name,
        },
    }
}
