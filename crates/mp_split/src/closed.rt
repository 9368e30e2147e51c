//! What an agent shows of its factor after grounding.

ghost use Rattle.std.specs.Prelude.{◌≡◌, ◌++◌, ◌∷◌, [], List, true, false, not, map, filter, option_copied, slice_index_or, Decides, IfOk, IsSomeAnd, OnOk};
ghost use Rattle.mp_joint.specs.Fact.{Text};
ghost use Rattle.mp_task.specs.Public.{is_public};
ghost use Rattle.mp_views.specs.Parts.{sorted_parts as parts_in_order};
ghost use Rattle.mp_grounder.specs.Limits.{KeepsLimits};
ghost use Rattle.mp_split.specs.Closed.{texts_at, is_number_in, part_of, is_met, closed_view as view_of};

use mp_grounder::Ground;
use mp_lifting::FactTexts;
use mp_list::{Copied, List, OutOfMemory};
use mp_sets::Bits;
use mp_sexp::Name;
use mp_task::Act;
use mp_views::{Part, View, sorted_parts};
use std::alloc::Global;

/// A copy of the text at a place of a table, and the empty text past its end.
fn text_at(alloc: Global, table: &[Name], place: u32) -> Result<Name, OutOfMemory>
    ensures { IfOk result (λ text. text ≡ slice_index_or table.now place []) }
{
    match table.get(place as usize) {
        Some(text) => text.copy(),
        None => Ok(Name::new(alloc)),
    }
}

/// The texts at some places of a table.
fn copy_texts(alloc: Global, table: &[Name], places: &[u32]) -> Result<FactTexts, OutOfMemory>
    ensures { IfOk result (λ texts. texts ≡ texts_at table.now places.now) }
{
    let mut texts = List::with_capacity(alloc, places.len())?;
    for place in places {
        texts.push(text_at(alloc, table, *place)?)?;
    }
    Ok(texts)
}

/// Whether a number is one of these.
fn is_one_of(number: u32, numbers: &[u32]) -> bool
    ensures { result ≡ is_number_in numbers.now number }
{
    numbers.iter().any(|other| *other == number)
}

/// Adds the text of a delete, where it is no add.
fn add_delete(
    alloc: Global,
    texts: &mut FactTexts,
    table: &[Name],
    add: &[u32],
    delete: u32,
) -> Result<(), OutOfMemory>
    ensures { OnOk result (texts.new ≡ texts.old
        ++ texts_at table.now (filter (λ n. not (is_number_in add.now n)) (delete ∷ []))) }
{
    if !is_one_of(delete, add) {
        texts.push(text_at(alloc, table, delete)?)?;
    }
    Ok(())
}

/// The texts of the deletes that are no adds.
fn deleted(
    alloc: Global,
    table: &[Name],
    add: &[u32],
    del: &[u32],
) -> Result<FactTexts, OutOfMemory>
    ensures { IfOk result (λ texts. texts
        ≡ texts_at table.now (filter (λ n. not (is_number_in add.now n)) del.now)) }
{
    let mut texts = List::new(alloc);
    for delete in del {
        add_delete(alloc, &mut texts, table, add, *delete)?;
    }
    Ok(texts)
}

/// The public part of an action.
fn make_part(alloc: Global, table: &[Name], act: &Act) -> Result<Part, OutOfMemory>
    ensures { IfOk result (λ part. part ≡ part_of table.now act.now) }
{
    let add = act.add_pub.as_slice();
    Ok(Part {
        cost: act.cost,
        pre: copy_texts(alloc, table, act.pre_pub.as_slice())?,
        add: copy_texts(alloc, table, add)?,
        del: deleted(alloc, table, add, act.del_pub.as_slice())?,
    })
}

/// Whether an action has a public precondition, add or delete.
fn has_public_facts(act: &Act) -> bool
    ensures { result ≡ is_public act.now }
{
    act.pre_pub.len() > 0 || act.add_pub.len() > 0 || act.del_pub.len() > 0
}

/// Whether two actions have the same cost and the same public facts, so that they show the same part.
fn shows_same(a: &Act, b: &Act) -> bool
    ensures { Decides result ((a.now.cost ≡ b.now.cost) × (a.now.pre_pub ≡ b.now.pre_pub)
        × (a.now.add_pub ≡ b.now.add_pub) × (a.now.del_pub ≡ b.now.del_pub)) }
{
    a.cost == b.cost && a.pre_pub == b.pre_pub && a.add_pub == b.add_pub && a.del_pub == b.del_pub
}

/// Whether an action is public and shows another part than the last one that was shown, if there is one.
fn is_new(last: Option<&Act>, act: &Act) -> bool
    ensures public { result ≡ true → is_public act.now ≡ true }
    ensures repeated { result ≡ false → is_public act.now ≡ true → IsSomeAnd (option_copied last.entry)
        (λ b. (table : List Text) → part_of table b ≡ part_of table act.now) }
{
    if !has_public_facts(act) {
        return false;
    }
    match last {
        Some(shown) => !shows_same(shown, act),
        None => true,
    }
}

/// Parts that are in order what the public parts of all public actions are. Actions that follow one another and show the
/// same part have it made once.
fn parts_of(alloc: Global, table: &[Name], acts: &[Act]) -> Result<Vec<Part>, OutOfMemory>
    ensures { IfOk result (λ parts. parts_in_order parts.items
        ≡ parts_in_order (map (part_of table.now) (filter is_public acts.now))) }
{
    let mut parts = Vec::new(alloc);
    let mut last = None;
    for act in acts {
        if is_new(last, act) {
            parts.push(make_part(alloc, table, act)?)?;
            last = Some(act);
        }
    }
    Ok(parts)
}

/// Whether the private goals hold at the start.
fn are_goals_met(alloc: Global, ground: &Ground) -> Result<bool, OutOfMemory>
    requires { KeepsLimits ground.now }
    ensures { IfOk result (λ met. met ≡ is_met ground.now) }
{
    let start = Bits::from_list(alloc, ground.privates, &ground.start)?;
    Ok(start.holds(&ground.goal_priv))
}

/// What an agent shows after grounding: its public facts and goals, whether its private goals hold at the start, and
/// the public parts of its public actions. Refuses only for want of memory.
pub fn closed_view(alloc: Global, ground: &Ground) -> Result<View, OutOfMemory>
    requires { KeepsLimits ground.now }
    ensures { IfOk result (λ v. v ≡ view_of ground.now) }
{
    let table = ground.publics.as_slice();
    let parts = parts_of(alloc, table, ground.acts.as_slice())?;
    let met = are_goals_met(alloc, ground)?;
    let goals = copy_texts(alloc, table, ground.goal_pub.as_slice())?;
    let acts = sorted_parts(alloc, parts)?;
    Ok(View {
        facts: ground.publics.copy()?,
        goals,
        met,
        acts,
    })
}
