//! Literals and conditions.

ghost use Rattle.mp_forms.specs.Rules.Conditions.{negated_rule, literal_rule, condition_rule};

use crate::atom_values::AtomForm;
use crate::conjuncts::{conjuncts_in, read_conjuncts};
use crate::found::{Form, Found, read_alone};
use crate::trees::{behind_first, has_head, members, place};
use mp_forms::{Atom, Literal, LiteralList};
use mp_list::OutOfMemory;
use mp_sexp::Tree;
use std::alloc::Global;

/// `(not ATOM)`.
#[derive(Clone, Copy)]
pub struct NegatedForm;

#[tactic(auto, unfolding(mp_forms::specs::Rules::Conditions::negated_rule))]
impl Form<Atom> for NegatedForm {
    ghost rule = { λ form node. negated_rule node };

    fn read(&self, alloc: Global, tree: &Tree) -> Result<Found<Atom>, OutOfMemory> {
        read_alone(alloc, &AtomForm, place(tree), behind_first(members(tree)))
    }
}

/// An atom or `(not ATOM)`.
#[derive(Clone, Copy)]
pub struct LiteralForm;

#[tactic(auto, using(crate::proofs::FoundLemmas::found_said), unfolding(mp_forms::specs::Rules::Conditions::literal_rule))]
impl Form<Literal> for LiteralForm {
    ghost rule = { λ form node. literal_rule node };

    fn read(&self, alloc: Global, tree: &Tree) -> Result<Found<Literal>, OutOfMemory> {
        if has_head(tree, b"not") {
            let atom = NegatedForm.read(alloc, tree)?;
            Ok(atom.map(|atom| Literal {
                positive: false,
                atom,
            }))
        } else {
            let atom = AtomForm.read(alloc, tree)?;
            Ok(atom.map(|atom| Literal {
                positive: true,
                atom,
            }))
        }
    }
}

/// A condition.
#[derive(Clone, Copy)]
pub struct ConditionForm;

#[tactic(auto, unfolding(mp_forms::specs::Rules::Conditions::condition_rule))]
impl Form<LiteralList> for ConditionForm {
    ghost rule = { λ form node. condition_rule node };

    fn read(&self, alloc: Global, tree: &Tree) -> Result<Found<LiteralList>, OutOfMemory> {
        let conjuncts = conjuncts_in(alloc, tree)?;
        read_conjuncts(alloc, &LiteralForm, conjuncts.as_slice())
    }
}
