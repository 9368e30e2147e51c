//! The actions that apply in a state.

ghost use Rattle.std.specs.Prelude.{◌≡◌, ℕ, [], IfOk, length, slice_index_or};
ghost use Rattle.std.specs.FinSet as set;
ghost use Rattle.mp_applicable.specs.Applicable.{added_if, is_applicable};
ghost use Rattle.mp_applicable.specs.Finding.{AreAdded, AreDueAdded};
ghost use Rattle.mp_applicable.specs.Index.{IsIndexOf};
ghost use Rattle.mp_applicable.specs.Listing.{AreListsOf};

use crate::building::{Lists, lists_of};
use mp_list::{List, OutOfMemory};
use mp_sets::Bits;
use mp_task::Task;
use std::alloc::Global;

/// The own actions of a task, each listed under a fact that it needs, so that the actions that apply in a state are
/// among those listed under the facts that are true there. Each is listed under the fact that the fewest need.
#[derive(Drop)]
pub struct ActionIndex {
    lists: Lists,
    /// The empty set of action numbers.
    none: Bits,
}

impl ActionIndex {
    /// The index of the own actions of a task. Refuses only for want of memory.
    pub fn new(alloc: Global, task: &Task) -> Result<ActionIndex, OutOfMemory>
        ensures { IfOk result (IsIndexOf task.now) }
    {
        Ok(ActionIndex {
            lists: lists_of(alloc, task)?,
            none: Bits::new(alloc, task.acts.len() as u32)?,
        })
    }

    /// Makes a set the numbers of the actions that apply where these facts are true. Takes no memory.
    pub fn find(&self, task: &Task, publics: &Bits, privates: &Bits, found: &mut Bits)
        requires index { IsIndexOf task.now self.now }
        requires publics { publics.now.size ≡ task.now.publics }
        requires privates { privates.now.size ≡ task.now.privates }
        requires size { found.old.size ≡ length task.now.acts }
        ensures size { found.new.size ≡ length task.now.acts }
        ensures found { (k : ℕ) → set.contains found.new.members k
            ≡ is_applicable task.now.acts publics.now.members privates.now.members k }
    {
        found.copy_from(&self.none);
        find_listed(&self.lists, task, publics, privates, found);
    }
}

/// Adds the actions that apply to the empty set.
fn find_listed(lists: &Lists, task: &Task, publics: &Bits, privates: &Bits, found: &mut Bits)
    requires lists { AreListsOf task.now lists.now }
    requires publics { publics.now.size ≡ task.now.publics }
    requires privates { privates.now.size ≡ task.now.privates }
    requires none { found.old ≡ record { size = length task.now.acts; members = set.empty } }
    ensures size { found.new.size ≡ length task.now.acts }
    ensures found { (k : ℕ) → set.contains found.new.members k
        ≡ is_applicable task.now.acts publics.now.members privates.now.members k }
{
    add_listed(found, task, lists.by_none(), publics, privates);
    add_due(found, task, lists.by_public(), publics, publics, privates);
    add_due(found, task, lists.by_private(), privates, publics, privates);
}

/// Adds the action of a number if there is one that applies.
fn add_if_applicable(found: &mut Bits, task: &Task, number: u32, publics: &Bits, privates: &Bits)
    requires publics { publics.now.size ≡ task.now.publics }
    requires privates { privates.now.size ≡ task.now.privates }
    requires size { found.old.size ≡ length task.now.acts }
    ensures { found.new ≡ record found.old {
      members = added_if
          (is_applicable task.now.acts publics.now.members privates.now.members number) number found.old.members;
    } }
{
    let Some(act) = task.acts.get(number as usize) else {
        return;
    };
    if publics.holds(&act.pre_pub) && privates.holds(&act.pre_priv) {
        found.insert(number);
    }
}

/// Adds those actions of a list that apply.
fn add_listed(found: &mut Bits, task: &Task, list: &[u32], publics: &Bits, privates: &Bits)
    requires publics { publics.now.size ≡ task.now.publics }
    requires privates { privates.now.size ≡ task.now.privates }
    requires size { found.old.size ≡ length task.now.acts }
    ensures size { found.new.size ≡ found.old.size }
    ensures added { AreAdded (is_applicable task.now.acts publics.now.members privates.now.members)
        list.now found.old.members found.new.members }
{
    for number in list {
        add_if_applicable(found, task, *number, publics, privates);
    }
}

/// Adds those actions of the list of a fact that apply. No action is listed under most facts.
fn add_row(found: &mut Bits, task: &Task, list: &[u32], publics: &Bits, privates: &Bits)
    requires publics { publics.now.size ≡ task.now.publics }
    requires privates { privates.now.size ≡ task.now.privates }
    requires size { found.old.size ≡ length task.now.acts }
    ensures size { found.new.size ≡ found.old.size }
    ensures added { AreAdded (is_applicable task.now.acts publics.now.members privates.now.members)
        list.now found.old.members found.new.members }
{
    if list.is_empty() {
        return;
    }
    add_listed(found, task, list, publics, privates);
}

/// The list of a fact.
fn row(lists: &[List<u32>], fact: u32) -> &[u32]
    ensures { result.now ≡ slice_index_or lists.now fact [] }
{
    match lists.get(fact as usize) {
        Some(list) => list.as_slice(),
        None => &[],
    }
}

/// Adds the actions that apply and are listed under a fact that is true.
fn add_due(
    found: &mut Bits,
    task: &Task,
    lists: &[List<u32>],
    facts: &Bits,
    publics: &Bits,
    privates: &Bits,
)
    requires publics { publics.now.size ≡ task.now.publics }
    requires privates { privates.now.size ≡ task.now.privates }
    requires size { found.old.size ≡ length task.now.acts }
    ensures size { found.new.size ≡ found.old.size }
    ensures added { AreDueAdded (is_applicable task.now.acts publics.now.members privates.now.members)
        lists.now facts.now.members found.old.members found.new.members }
{
    let mut from = 0;
    while let Some(fact) = facts.least_from(from) {
        add_row(found, task, row(lists, fact), publics, privates);
        from = fact + 1;
    }
}
