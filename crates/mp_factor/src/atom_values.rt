//! Terms and atoms.

ghost use Rattle.std.specs.Prelude.{◌≡◌, IfOk};
ghost use Rattle.mp_sexp.specs.Node.{node_of, nodes_in};
ghost use Rattle.mp_forms.specs.Reading.{both, each};
ghost use Rattle.mp_factor.specs.Found.{found_in};
ghost use Rattle.mp_forms.specs.Rules.Atoms.{object_rule, term_rule, predicate_rule, applied, applied_rule, atom_rule};

use crate::found::{Form, Found, pair, read_each, shape_fault, word_fault};
use crate::trees::{is_fixed_tree, is_variable_tree, members, place};
use crate::word::{NameForm, word_in};
use mp_forms::{Atom, Term, Word};
use mp_list::OutOfMemory;
use mp_sexp::Tree;
use std::alloc::Global;

/// The name of an object.
#[derive(Clone, Copy)]
pub struct ObjectForm;

#[tactic(auto, using(crate::proofs::FoundLemmas::found_said))]
impl Form<Term> for ObjectForm {
    ghost rule = { λ form node. object_rule node };

    fn read(&self, alloc: Global, tree: &Tree) -> Result<Found<Term>, OutOfMemory> {
        Ok(NameForm.read(alloc, tree)?.map(|word| Term::Object(word)))
    }
}

/// A variable or a name.
#[derive(Clone, Copy)]
pub struct TermForm;

#[tactic(auto, unfolding(mp_forms::specs::Rules::Atoms::term_rule))]
impl Form<Term> for TermForm {
    ghost rule = { λ form node. term_rule node };

    fn read(&self, alloc: Global, tree: &Tree) -> Result<Found<Term>, OutOfMemory> {
        if is_variable_tree(tree) {
            Ok(Ok(Term::Variable(word_in(alloc, tree)?)))
        } else {
            ObjectForm.read(alloc, tree)
        }
    }
}

/// The name of a predicate.
#[derive(Clone, Copy)]
pub struct PredicateForm;

#[tactic(auto, unfolding(mp_forms::specs::Rules::Atoms::predicate_rule))]
impl Form<Word> for PredicateForm {
    ghost rule = { λ form node. predicate_rule node };

    fn read(&self, alloc: Global, tree: &Tree) -> Result<Found<Word>, OutOfMemory> {
        if is_fixed_tree(tree) {
            word_fault(alloc, tree)
        } else {
            NameForm.read(alloc, tree)
        }
    }
}

/// A name applied to terms, of these forms. Refuses only for want of memory.
#[tactic(auto, using(crate::proofs::FoundLemmas::found_both, crate::proofs::FoundLemmas::pair_said))]
fn read_members<N: Form<Word>, T: Form<Term>>(
    alloc: Global,
    forms: &Applied<N, T>,
    head: &Tree,
    terms: &[Tree],
) -> Result<Found<Atom>, OutOfMemory>
    ensures { IfOk result (λ found. found ≡ found_in (both applied
        (N.rule forms.now.name (node_of head.now)) (each (T.rule forms.now.term) (nodes_in terms.now)))) }
{
    let word = forms.name.read(alloc, head)?;
    let atom = pair(word, read_each(alloc, &forms.term, terms)?);
    Ok(atom.map(|(word, terms)| Atom { word, terms }))
}

/// A name of a form applied to terms of a form.
#[derive(Clone, Copy)]
pub struct Applied<N, T> {
    pub name: N,
    pub term: T,
}

#[tactic(auto, unfolding(mp_forms::specs::Rules::Atoms::applied_rule))]
impl<N: Form<Word>, T: Form<Term>> Form<Atom> for Applied<N, T> {
    ghost rule = { λ forms node. applied_rule (N.rule forms.name) (T.rule forms.term) node };

    fn read(&self, alloc: Global, tree: &Tree) -> Result<Found<Atom>, OutOfMemory> {
        match members(tree) {
            [] => Ok(shape_fault(alloc, place(tree))),
            [head, terms @ ..] => read_members(alloc, self, head, terms),
        }
    }
}

/// An atom.
#[derive(Clone, Copy)]
pub struct AtomForm;

impl Form<Atom> for AtomForm {
    ghost rule = { λ form node. atom_rule node };

    fn read(&self, alloc: Global, tree: &Tree) -> Result<Found<Atom>, OutOfMemory> {
        let forms = Applied {
            name: PredicateForm,
            term: TermForm,
        };
        forms.read(alloc, tree)
    }
}
