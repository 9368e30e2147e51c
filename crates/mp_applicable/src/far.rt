//! Which agents' public actions may be applicable.

ghost use Rattle.std.specs.Prelude.{◌≡◌, ◌==◌, ◌&&◌, ◌||◌, ◌≤◌, ℕ, All, IfOk, OnOk};
ghost use Rattle.std.specs.List.{list_any};
ghost use Rattle.mp_sets.specs.Numbers.{Numbers, holds};
ghost use Rattle.mp_task.specs.Limits.{AllLess};
ghost use Rattle.mp_applicable.specs.Far.{ArePreconditionsOf, IsFarIndexOf, may_act};

use indexmap::IndexSet;
use mp_list::{Copied, OutOfMemory};
use mp_sets::{Agent, Bits, FactList};
use mp_task::{Far, Task};
use std::alloc::Global;

/// For each agent of a team the different lists of public preconditions of its public actions.
#[derive(Drop)]
pub struct FarIndex {
    lists: Vec<IndexSet<FactList>>,
}

impl FarIndex {
    /// The index of the parts of a task. Refuses only for want of memory.
    pub fn new(alloc: Global, task: &Task) -> Result<FarIndex, OutOfMemory>
        ensures { IfOk result (IsFarIndexOf task.now) }
    {
        let mut lists = Vec::new(alloc);
        for before in 0..task.agents {
            lists.push(preconditions_of(alloc, task, before + 1)?)?;
        }
        Ok(FarIndex { lists })
    }

    /// Whether a public action of an agent may be applicable where these public facts are true. Takes no memory.
    pub fn may_act(&self, task: &Task, agent: Agent, publics: &Bits) -> bool
        requires index { IsFarIndexOf task.now self.now }
        requires publics { publics.now.size ≡ task.now.publics }
        requires team { agent ≤ task.now.agents }
        ensures { result ≡ may_act task.now.far agent publics.now.members }
    {
        let _ = task;
        match self.lists.get(agent.number() as usize - 1) {
            Some(set) => holds_any(publics, set.as_slice()),
            None => false,
        }
    }
}

/// Whether all facts of some list are true.
fn holds_any(publics: &Bits, lists: &[FactList]) -> bool
    requires { All (AllLess publics.now.size) lists.now }
    ensures { result ≡ list_any (holds publics.now.members) lists.now }
{
    for list in lists {
        if publics.holds(list) {
            return true;
        }
    }
    false
}

/// Adds a list to a set, unless it is there.
fn insert(set: &mut IndexSet<FactList>, list: &FactList) -> Result<(), OutOfMemory>
    ensures tells { OnOk result ((s : Numbers) → list_any (holds s) set.new.keys
        ≡ (list_any (holds s) set.old.keys || holds s list.now)) }
    ensures fits { OnOk result ((size : ℕ) → AllLess size list.now → All (AllLess size) set.old.keys
        → All (AllLess size) set.new.keys) }
{
    if set.contains(list) {
        return Ok(());
    }
    set.insert(list.copy()?)?;
    Ok(())
}

/// Adds the preconditions of a part if it is an agent's.
fn add_part(set: &mut IndexSet<FactList>, agent: u16, part: &Far) -> Result<(), OutOfMemory>
    ensures tells { OnOk result ((s : Numbers) → list_any (holds s) set.new.keys
        ≡ (list_any (holds s) set.old.keys || ((part.now.by == agent) && holds s part.now.pre))) }
    ensures fits { OnOk result ((size : ℕ) → AllLess size part.now.pre → All (AllLess size) set.old.keys
        → All (AllLess size) set.new.keys) }
{
    if part.by.number() != agent {
        return Ok(());
    }
    insert(set, &part.pre)
}

/// The different lists of public preconditions of an agent's public actions.
fn preconditions_of(
    alloc: Global,
    task: &Task,
    agent: u16,
) -> Result<IndexSet<FactList>, OutOfMemory>
    ensures { IfOk result (λ set. ArePreconditionsOf task.now agent set.keys) }
{
    let mut set = IndexSet::new(alloc);
    for part in task.far.as_slice() {
        add_part(&mut set, agent, part)?;
    }
    Ok(set)
}
