//! Applied functions by the words of their trees, to look them up without memory.

ghost use Rattle.std.specs.Cmp.Rules.{comparing};
ghost use Rattle.std.proofs.Common.{rules};
ghost use Rattle.mp_forms.specs.Rules.Init.{same_names};
ghost use Rattle.mp_forms.proofs.ValueLaws.{same_by_test};

use crate::trees::{members, word};
use crate::words::is_same;
use mp_sexp::Tree;
use std::hash::{Hash, Hasher};
use std::marker::Model;

/// A function and what it is applied to, in the tree that says so. Contracts see the words of that list.
#[derive(Drop)]
pub struct FunctionKey<'a> {
    pub tree: &'a Tree,
}

impl<'a> Model for FunctionKey<'a> {
    ghost use Rattle.std.specs.Prelude.{List, ℕ};
    ghost use Rattle.mp_sexp.specs.Node.{node_of};
    ghost use Rattle.mp_factor.specs.FirstCosts.{words_in};

    ghost Value = { List (List ℕ) };

    ghost view = { λ k. words_in (node_of k.tree.now) };
}

impl PartialEq for FunctionKey<'_> {
    ghost eq = { same_names };

    ghost laws = { Prim.search (comparing, rules) };

    fn eq(&self, other: &FunctionKey<'_>) -> bool {
        let mut ours = members(self.tree);
        let mut others = members(other.tree);
        while let ([our, ours_behind @ ..], [other, others_behind @ ..]) = (ours, others) {
            if !is_same(word(our), word(other)) {
                return false;
            }
            ours = ours_behind;
            others = others_behind;
        }
        ours.is_empty() && others.is_empty()
    }
}

impl Eq for FunctionKey<'_> {
    ghost laws = { Prim.search (comparing, rules) };
}

impl Hash for FunctionKey<'_> {
    ghost hash_input = { λ words. words };

    ghost respects_eq = { same_by_test };

    fn hash<H: Hasher>(&self, state: &mut H) {
        for tree in members(self.tree) {
            state.write(word(tree));
        }
    }
}
