//! Words as a factor keeps them: a name and where it stands.

ghost use Rattle.std.specs.Prelude.{◌≡◌, IfOk};
ghost use Rattle.mp_sexp.specs.Node.{node_of};
ghost use Rattle.mp_forms.specs.Rules.Words.{word_at, name_rule, variable_rule};

use crate::found::{Form, Found, shape_fault};
use crate::trees::{is_name_tree, is_variable_tree, place};
use mp_forms::Word;
use mp_list::{Copied, OutOfMemory};
use mp_sexp::{Name, Tree};
use std::alloc::Global;

/// The word that a tree is; of a list, the empty word at its bracket.
pub fn word_in(alloc: Global, tree: &Tree) -> Result<Word, OutOfMemory>
    ensures { IfOk result (λ word. word ≡ word_at (node_of tree.now)) }
{
    match tree {
        Tree::Word(name, at) => Ok(Word {
            name: name.copy()?,
            at: *at,
        }),
        Tree::List(_, at) => Ok(Word {
            name: Name::new(alloc),
            at: *at,
        }),
    }
}

/// A name.
#[derive(Clone, Copy)]
pub struct NameForm;

#[tactic(auto, unfolding(mp_forms::specs::Rules::Words::name_rule))]
impl Form<Word> for NameForm {
    ghost rule = { λ form node. name_rule node };

    fn read(&self, alloc: Global, tree: &Tree) -> Result<Found<Word>, OutOfMemory> {
        if is_name_tree(tree) {
            Ok(Ok(word_in(alloc, tree)?))
        } else {
            Ok(shape_fault(alloc, place(tree)))
        }
    }
}

/// A variable.
#[derive(Clone, Copy)]
pub struct VariableForm;

#[tactic(auto, unfolding(mp_forms::specs::Rules::Words::variable_rule))]
impl Form<Word> for VariableForm {
    ghost rule = { λ form node. variable_rule node };

    fn read(&self, alloc: Global, tree: &Tree) -> Result<Found<Word>, OutOfMemory> {
        if is_variable_tree(tree) {
            Ok(Ok(word_in(alloc, tree)?))
        } else {
            Ok(shape_fault(alloc, place(tree)))
        }
    }
}
