//! Tasks from their rows.

ghost use Rattle.std.specs.Prelude.{◌≡◌, ◌≤◌, ◌+◌, All, IfOk, OnOk, length};
ghost use Rattle.mp_task.specs.Limits.{ActFits, AllLess, FarFits};

use crate::teams::{ActRow, FarRow, TaskRow};
use mp_list::OutOfMemory;
use mp_sets::{Agent, Bits, FactList};
use mp_task::{Act, ActList, Far, FarList, Flags, Task};
use std::alloc::Global;

/// The greatest cost of an action.
const MOST: u64 = 16_000_000;

/// The numbers below a size.
fn facts(alloc: Global, size: u32, numbers: &[u32]) -> Result<FactList, OutOfMemory>
    ensures { IfOk result (AllLess size) }
{
    let mut set = Bits::new(alloc, size)?;
    for number in numbers {
        if *number < size {
            set.insert(*number);
        }
    }
    set.list()
}

/// An own action.
fn act(alloc: Global, publics: u32, privates: u32, row: &ActRow) -> Result<Act, OutOfMemory>
    ensures { IfOk result (ActFits publics privates) }
{
    Ok(Act {
        pre_pub: facts(alloc, publics, row.pre_pub)?,
        pre_priv: facts(alloc, privates, row.pre_priv)?,
        add_pub: facts(alloc, publics, row.add_pub)?,
        add_priv: facts(alloc, privates, row.add_priv)?,
        del_pub: facts(alloc, publics, row.del_pub)?,
        del_priv: facts(alloc, privates, row.del_priv)?,
        cost: row.cost.min(MOST),
    })
}

/// Adds an action.
fn push(publics: u32, privates: u32, acts: &mut ActList, act: Act) -> Result<(), OutOfMemory>
    requires old { All (ActFits publics privates) acts.old }
    requires act { ActFits publics privates act }
    ensures fit { OnOk result (All (ActFits publics privates) acts.new) }
    ensures count { OnOk result (length acts.new ≡ length acts.old + 1) }
{
    let _ = publics;
    let _ = privates;
    acts.push(act)
}

/// The own actions.
fn acts(alloc: Global, publics: u32, privates: u32, rows: &[ActRow]) -> Result<ActList, OutOfMemory>
    ensures fit { IfOk result (All (ActFits publics privates)) }
    ensures count { IfOk result (λ acts. length acts ≡ length rows.now) }
{
    let mut acts = ActList::new(alloc);
    for row in rows {
        let act = act(alloc, publics, privates, row)?;
        push(publics, privates, &mut acts, act)?;
    }
    Ok(acts)
}

/// The part of an action of an agent of the team.
fn part(
    alloc: Global,
    agents: u16,
    publics: u32,
    by: Agent,
    row: &FarRow,
) -> Result<Far, OutOfMemory>
    requires from_1 { 1 ≤ by }
    requires in_team { by ≤ agents }
    ensures { IfOk result (FarFits agents publics) }
{
    let _ = agents;
    Ok(Far {
        by,
        pre: facts(alloc, publics, row.pre)?,
        add: facts(alloc, publics, row.add)?,
        del: facts(alloc, publics, row.del)?,
        cost: row.cost.min(MOST),
    })
}

/// Adds a part.
fn push_part(agents: u16, publics: u32, far: &mut FarList, part: Far) -> Result<(), OutOfMemory>
    requires old { All (FarFits agents publics) far.old }
    requires part { FarFits agents publics part }
    ensures fit { OnOk result (All (FarFits agents publics) far.new) }
    ensures count { OnOk result (length far.new ≤ length far.old + 1) }
{
    let _ = agents;
    let _ = publics;
    far.push(part)
}

/// Adds the part of an action of another agent, if that is of the team.
fn push_far(
    alloc: Global,
    agents: u16,
    publics: u32,
    far: &mut FarList,
    row: &FarRow,
) -> Result<(), OutOfMemory>
    requires { All (FarFits agents publics) far.old }
    ensures fit { OnOk result (All (FarFits agents publics) far.new) }
    ensures count { OnOk result (length far.new ≤ length far.old + 1) }
{
    let Some(by) = Agent::new(row.by) else {
        return Ok(());
    };
    if by.number() > agents {
        return Ok(());
    }
    let part = part(alloc, agents, publics, by, row)?;
    push_part(agents, publics, far, part)
}

/// The parts of other agents' actions.
fn far(alloc: Global, agents: u16, publics: u32, rows: &[FarRow]) -> Result<FarList, OutOfMemory>
    ensures fit { IfOk result (All (FarFits agents publics)) }
    ensures count { IfOk result (λ far. length far ≤ length rows.now) }
{
    let mut far = FarList::new(alloc);
    for row in rows {
        push_far(alloc, agents, publics, &mut far, row)?;
    }
    Ok(far)
}

/// The flags of the agents.
fn met(alloc: Global, flags: &[bool]) -> Result<Flags, OutOfMemory>
    ensures { IfOk result (λ met. length met ≡ length flags.now) }
{
    let mut met = Flags::new(alloc);
    for flag in flags {
        met.push(*flag)?;
    }
    Ok(met)
}

/// The task of a row.
fn made(alloc: Global, row: &TaskRow, me: Agent) -> Result<Task, OutOfMemory>
    requires met { length row.now.met.now ≤ 16 }
    requires me { me ≤ length row.now.met.now }
    requires publics { row.now.publics ≤ 9 }
    requires privates { row.now.privates ≤ 9 }
    requires acts { length row.now.acts.now ≤ 9 }
    requires far { length row.now.far.now ≤ 9 }
{
    let agents = row.met.len() as u16;
    Ok(Task {
        me,
        agents,
        publics: row.publics,
        privates: row.privates,
        start_pub: facts(alloc, row.publics, row.start_pub)?,
        start_priv: facts(alloc, row.privates, row.start_priv)?,
        goal_pub: facts(alloc, row.publics, row.goal_pub)?,
        goal_priv: facts(alloc, row.privates, row.goal_priv)?,
        acts: acts(alloc, row.publics, row.privates, row.acts)?,
        far: far(alloc, agents, row.publics, row.far)?,
        met: met(alloc, row.met)?,
    })
}

/// The task of a row, if that is a small one of an agent of its team.
pub(crate) fn task(alloc: Global, row: &TaskRow) -> Result<Option<Task>, OutOfMemory> {
    let Some(me) = Agent::new(row.me) else {
        return Ok(None);
    };
    if row.met.len() > 16 || me.number() as usize > row.met.len() {
        return Ok(None);
    }
    if row.publics > 9 || row.privates > 9 || row.acts.len() > 9 || row.far.len() > 9 {
        return Ok(None);
    }
    Ok(Some(made(alloc, row, me)?))
}
