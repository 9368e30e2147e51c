//! How the actions of a task are listed.

ghost use Rattle.std.specs.Prelude.{◌≡◌, ◌<◌, Contains, IfOk, IfSome, OnOk, Some, length, slice_get};
ghost use Rattle.mp_task.specs.Limits.{ActFits};
ghost use Rattle.mp_applicable.specs.Listing.{AreListsOf, HasTaken, IsListedToo};

use mp_list::{List, OutOfMemory};
use mp_sets::FactList;
use mp_task::{Act, Task};
use std::alloc::Global;
use std::marker::Model;

/// The numbers of actions, each listed once. Contracts see the lists alone.
#[derive(Drop)]
pub(crate) struct Lists {
    /// For each public fact actions that need it.
    publics: Vec<List<u32>>,
    /// For each private fact actions that need it.
    privates: Vec<List<u32>>,
    /// The actions without preconditions.
    free: List<u32>,
}

impl Model for Lists {
    ghost use Rattle.mp_applicable.specs.Listing.{ActionLists};

    ghost Value = { ActionLists };

    ghost view = { λ l. record {
      publics = l.publics.items;
      privates = l.privates.items;
      free = l.free;
    } };
}

impl Lists {
    /// The lists of the public facts.
    pub(crate) fn by_public(&self) -> &[List<u32>]
        ensures { result.now ≡ self.now.publics }
    {
        self.publics.as_slice()
    }

    /// The lists of the private facts.
    pub(crate) fn by_private(&self) -> &[List<u32>]
        ensures { result.now ≡ self.now.privates }
    {
        self.privates.as_slice()
    }

    /// The list that goes with no fact.
    pub(crate) fn by_none(&self) -> &[u32]
        ensures { result.now ≡ self.now.free }
    {
        self.free.as_slice()
    }
}

/// For each fact how many actions need it.
#[derive(Drop)]
pub(crate) struct Uses {
    publics: Vec<u32>,
    privates: Vec<u32>,
}

/// A fact, and how many actions need it.
#[derive(Clone, Copy)]
struct Used {
    fact: u32,
    uses: u32,
}

/// Counts an action at each fact that it needs.
fn count(uses: &mut Vec<u32>, facts: &FactList) {
    for fact in facts.as_slice() {
        if let Some(count) = uses.get_mut(*fact as usize) {
            *count = count.saturating_add(1);
        }
    }
}

/// How many actions of a task need each fact.
pub(crate) fn uses_of(alloc: Global, task: &Task) -> Result<Uses, OutOfMemory> {
    let mut uses = Uses {
        publics: vec![in alloc; 0u32; task.publics as usize]?,
        privates: vec![in alloc; 0u32; task.privates as usize]?,
    };
    for act in task.acts.as_slice() {
        count(&mut uses.publics, &act.pre_pub);
        count(&mut uses.privates, &act.pre_priv);
    }
    Ok(uses)
}

/// Whether a fact is needed by fewer actions than another one, if there is one.
fn is_rarer(uses: u32, other: Option<Used>) -> bool {
    match other {
        Some(other) => uses < other.uses,
        None => true,
    }
}

/// The fact of a list that the fewest actions need.
fn rarest(uses: &[u32], facts: &FactList) -> Option<Used>
    ensures { IfSome result (λ used. Contains facts.now used.fact) }
{
    let mut rarest: Option<Used> = None;
    for fact in facts.as_slice() {
        let uses = uses.get(*fact as usize).copied().unwrap_or(0);
        if is_rarer(uses, rarest) {
            rarest = Some(Used { fact: *fact, uses });
        }
    }
    rarest
}

/// So many empty lists.
fn empty_lists(alloc: Global, count: u32) -> Result<Vec<List<u32>>, OutOfMemory>
    ensures { IfOk result (λ lists. length lists.items ≡ count) }
{
    let mut lists = Vec::with_capacity(alloc, count as usize)?;
    for _ in 0..count {
        lists.push(List::new(alloc))?;
    }
    Ok(lists)
}

/// Adds a number to the list of a fact.
fn push_at(lists: &mut Vec<List<u32>>, fact: u32, number: u32) -> Result<(), OutOfMemory>
    requires { fact < length lists.old.items }
    ensures { OnOk result (HasTaken lists.old.items fact number lists.new.items) }
{
    lists[fact as usize].push(number)?;
    Ok(())
}

/// Lists an action under a public fact that it needs.
fn list_public(lists: &mut Lists, act: &Act, fact: u32, number: u32) -> Result<(), OutOfMemory>
    requires inside { fact < length lists.old.publics }
    requires needed { Contains act.now.pre_pub fact }
    ensures { OnOk result (IsListedToo number act.now lists.old lists.new) }
{
    let _ = act;
    push_at(&mut lists.publics, fact, number)?;
    Ok(())
}

/// Lists an action under a private fact that it needs.
fn list_private(lists: &mut Lists, act: &Act, fact: u32, number: u32) -> Result<(), OutOfMemory>
    requires inside { fact < length lists.old.privates }
    requires needed { Contains act.now.pre_priv fact }
    ensures { OnOk result (IsListedToo number act.now lists.old lists.new) }
{
    let _ = act;
    push_at(&mut lists.privates, fact, number)?;
    Ok(())
}

/// Lists an action under no fact.
fn list_free(lists: &mut Lists, act: &Act, number: u32) -> Result<(), OutOfMemory>
    ensures { OnOk result (IsListedToo number act.now lists.old lists.new) }
{
    let _ = act;
    lists.free.push(number)?;
    Ok(())
}

/// Lists an action under the fact that the fewest need of those that it needs, if it needs one.
fn list(lists: &mut Lists, uses: &Uses, act: &Act, number: u32) -> Result<(), OutOfMemory>
    requires fits { ActFits (length lists.old.publics) (length lists.old.privates) act.now }
    ensures { OnOk result (IsListedToo number act.now lists.old lists.new) }
{
    let public = rarest(uses.publics.as_slice(), &act.pre_pub);
    let private = rarest(uses.privates.as_slice(), &act.pre_priv);
    match (public, private) {
        (Some(used), Some(other)) => {
            if other.uses < used.uses {
                list_private(lists, act, other.fact, number)
            } else {
                list_public(lists, act, used.fact, number)
            }
        }
        (Some(used), None) => list_public(lists, act, used.fact, number),
        (None, Some(used)) => list_private(lists, act, used.fact, number),
        (None, None) => list_free(lists, act, number),
    }
}

/// Lists the action of a number of a task.
fn list_next(
    lists: &mut Lists,
    uses: &Uses,
    task: &Task,
    act: &Act,
    number: usize,
) -> Result<(), OutOfMemory>
    requires act { slice_get task.now.acts number ≡ Some act.now }
    requires publics { length lists.old.publics ≡ task.now.publics }
    requires privates { length lists.old.privates ≡ task.now.privates }
    ensures { OnOk result (IsListedToo number act.now lists.old lists.new) }
{
    let _ = task.acts.len();
    list(lists, uses, act, number as u32)
}

/// The actions of a task, each listed under a fact that it needs.
pub(crate) fn lists_of(alloc: Global, task: &Task) -> Result<Lists, OutOfMemory>
    ensures { IfOk result (AreListsOf task.now) }
{
    let uses = uses_of(alloc, task)?;
    let mut lists = Lists {
        publics: empty_lists(alloc, task.publics)?,
        privates: empty_lists(alloc, task.privates)?,
        free: List::new(alloc),
    };
    for (number, act) in task.acts.as_slice().iter().enumerate() {
        list_next(&mut lists, &uses, task, act, number)?;
    }
    Ok(lists)
}
