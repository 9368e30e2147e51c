//! The conjuncts of a condition or an effect, and what each of them says.

ghost use Rattle.std.specs.Prelude.{◌≡◌, ◌++◌, ◌∷◌, [], List, map, IfOk, OnOk};
ghost use Rattle.std.specs.List.{flat_map};
ghost use Rattle.mp_sexp.specs.Node.{node_of, nodes_in};
ghost use Rattle.mp_forms.specs.Conjuncts.{conjuncts};
ghost use Rattle.mp_forms.specs.Reading.{each};
ghost use Rattle.mp_factor.specs.Found.{found_in};

use crate::found::{Form, Found, add_item};
use crate::trees::is_keyword;
use mp_list::{List, OutOfMemory};
use mp_sexp::Tree;
use std::alloc::Global;

/// Adds a tree. Refuses only for want of memory.
#[tactic(auto, using(std::proofs::lemmas::Grind::common_steps))]
fn add_tree<'t>(out: &mut Vec<&'t Tree>, tree: &'t Tree) -> Result<(), OutOfMemory>
    ensures { OnOk result (map (λ t. node_of t.now) out.new.items
        ≡ map (λ t. node_of t.now) out.old.items ++ node_of tree.now ∷ []) }
{
    out.push(tree)?;
    Ok(())
}

/// Adds the conjuncts of a tree. Refuses only for want of memory.
#[cycle(conjuncts)]
fn add_conjuncts<'t>(out: &mut Vec<&'t Tree>, tree: &'t Tree) -> Result<(), OutOfMemory>
    ensures { OnOk result (map (λ t. node_of t.now) out.new.items
        ≡ map (λ t. node_of t.now) out.old.items ++ conjuncts (node_of tree.now)) }
{
    match tree {
        Tree::Word(_, _) => add_tree(out, tree),
        Tree::List(list, _) => match list.items.as_slice() {
            [] => Ok(()),
            [head, rest @ ..] => {
                if is_keyword(head, b"and") {
                    add_all_conjuncts(out, rest)
                } else {
                    add_tree(out, tree)
                }
            }
        },
    }
}

/// Adds the conjuncts of some trees. Refuses only for want of memory.
#[tactic(auto, using(mp_forms::proofs::BuildSteps::append_steps))]
#[cycle(conjuncts)]
fn add_all_conjuncts<'t>(out: &mut Vec<&'t Tree>, trees: &'t [Tree]) -> Result<(), OutOfMemory>
    ensures { OnOk result (map (λ t. node_of t.now) out.new.items
        ≡ map (λ t. node_of t.now) out.old.items ++ flat_map conjuncts (nodes_in trees.now)) }
{
    for tree in trees {
        add_conjuncts(out, tree)?;
    }
    Ok(())
}

/// The conjuncts of a tree. Refuses only for want of memory.
pub fn conjuncts_in(alloc: Global, tree: &Tree) -> Result<Vec<&Tree>, OutOfMemory>
    ensures { IfOk result (λ found. map (λ t. node_of t.now) found.items ≡ conjuncts (node_of tree.now)) }
{
    let mut out = Vec::new(alloc);
    add_conjuncts(&mut out, tree)?;
    Ok(out)
}

/// What each of these conjuncts says. Refuses only for want of memory.
pub fn read_conjuncts<T: Drop, F: Form<T>>(
    alloc: Global,
    form: &F,
    trees: &[&Tree],
) -> Result<Found<List<T>>, OutOfMemory>
    ensures { IfOk result (λ found. found ≡ found_in (each (F.rule form.now) (map (λ t. node_of t.now) trees.now))) }
{
    let mut so_far = Ok(List::new(alloc));
    for tree in trees {
        so_far = add_item(so_far, form.read(alloc, tree)?)?;
    }
    Ok(so_far)
}
