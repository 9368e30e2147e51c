//! Tasks of agents of small teams, with as many public as own private facts each, by the lines of a block:
//!
//! - `start FACTS` and `goals FACTS`;
//! - `act FACTS / FACTS / FACTS / COST`, an own action with its preconditions, adds and deletes;
//! - `far AGENT / FACTS / FACTS / FACTS / COST`, the public part of another agent's action.
//!
//! Where there are four facts of each kind, a number below four is that of a public fact, and each higher one is four above the
//! number of a private fact.

ghost use Rattle.std.specs.Prelude.{◌≡◌, ◌≤◌, All, IfOk, IfSome, OnOk, length};
ghost use Rattle.mp_task.specs.Limits.{ActFits, AllLess, FarFits};

use crate::lines::{long, part};
use crate::states::{agent_at, set_of};
use mp_list::OutOfMemory;
use mp_sets::{Agent, FactList};
use mp_task::{Act, ActList, Far, FarList, Flags, Task};
use std::alloc::Global;

/// How many public facts most tasks have; they have as many private ones.
pub(crate) const FACTS: u32 = 4;

/// How many of each there are in wide tasks.
pub(crate) const WIDE: u32 = 8;

/// The numbers of a text from `from` on, below so many more than that, as facts from 0 on.
fn facts_in(alloc: Global, facts: u32, text: &str, from: u32) -> Result<FactList, OutOfMemory>
    ensures { IfOk result (AllLess facts) }
{
    set_of(alloc, facts, text, from)?.list()
}

/// The own action of a line.
fn act(alloc: Global, facts: u32, line: &str) -> Result<Act, OutOfMemory>
    ensures { IfOk result (ActFits facts facts) }
{
    let (pre, add, del) = (part(line, 0), part(line, 1), part(line, 2));
    Ok(Act {
        pre_pub: facts_in(alloc, facts, pre, 0)?,
        pre_priv: facts_in(alloc, facts, pre, facts)?,
        add_pub: facts_in(alloc, facts, add, 0)?,
        add_priv: facts_in(alloc, facts, add, facts)?,
        del_pub: facts_in(alloc, facts, del, 0)?,
        del_priv: facts_in(alloc, facts, del, facts)?,
        cost: long(part(line, 3), 0).min(16_000_000),
    })
}

/// Adds an action.
fn add(acts: &mut ActList, facts: u32, act: Act) -> Result<(), OutOfMemory>
    requires old { All (ActFits facts facts) acts.old }
    requires act { ActFits facts facts act }
    ensures { OnOk result (All (ActFits facts facts) acts.new) }
{
    let _ = facts;
    acts.push(act)
}

/// Adds the own action of a line, if it is that of one.
fn push(alloc: Global, facts: u32, acts: &mut ActList, line: &str) -> Result<(), OutOfMemory>
    requires { All (ActFits facts facts) acts.old }
    ensures { OnOk result (All (ActFits facts facts) acts.new) }
{
    match line.strip_prefix("act ") {
        Some(line) => add(acts, facts, act(alloc, facts, line)?),
        None => Ok(()),
    }
}

/// The own actions of a block.
fn acts(alloc: Global, facts: u32, lines: &str) -> Result<ActList, OutOfMemory>
    ensures { IfOk result (All (ActFits facts facts)) }
{
    let mut acts = ActList::new(alloc);
    for line in lines.lines() {
        push(alloc, facts, &mut acts, line)?;
    }
    Ok(acts)
}

/// The part of an action of another agent of the team.
fn part_of(
    alloc: Global,
    facts: u32,
    by: Agent,
    agents: u16,
    line: &str,
) -> Result<Far, OutOfMemory>
    requires { by ≤ agents }
    ensures { IfOk result (FarFits agents facts) }
{
    let _ = agents;
    Ok(Far {
        by,
        pre: facts_in(alloc, facts, part(line, 1), 0)?,
        add: facts_in(alloc, facts, part(line, 2), 0)?,
        del: facts_in(alloc, facts, part(line, 3), 0)?,
        cost: long(part(line, 4), 0).min(16_000_000),
    })
}

/// Adds a part.
fn add_far(far: &mut FarList, facts: u32, agents: u16, part: Far) -> Result<(), OutOfMemory>
    requires old { All (FarFits agents facts) far.old }
    requires part { FarFits agents facts part }
    ensures { OnOk result (All (FarFits agents facts) far.new) }
{
    let _ = (facts, agents);
    far.push(part)
}

/// Adds the part of a line, if it is that of an agent of the team.
fn push_far(
    alloc: Global,
    facts: u32,
    far: &mut FarList,
    agents: u16,
    line: &str,
) -> Result<(), OutOfMemory>
    requires { All (FarFits agents facts) far.old }
    ensures { OnOk result (All (FarFits agents facts) far.new) }
{
    let by = agent_at(line, 0);
    match line.strip_prefix("far ") {
        Some(line) if by.number() <= agents => add_far(
            far,
            facts,
            agents,
            part_of(alloc, facts, by, agents, line)?,
        ),
        _ => Ok(()),
    }
}

/// The parts of other agents' actions of a block.
fn far(alloc: Global, facts: u32, agents: u16, lines: &str) -> Result<FarList, OutOfMemory>
    ensures { IfOk result (All (FarFits agents facts)) }
{
    let mut far = FarList::new(alloc);
    for line in lines.lines() {
        push_far(alloc, facts, &mut far, agents, line)?;
    }
    Ok(far)
}

/// What stands behind a word in a line of a block.
fn behind<'a>(lines: &'a str, word: &str) -> &'a str {
    for line in lines.lines() {
        if let Some(rest) = line.strip_prefix(word) {
            return part(rest, 0);
        }
    }
    ""
}

/// For each agent of the team, whether its private goals are true at the start.
fn flags(alloc: Global, text: &str) -> Result<Flags, OutOfMemory> {
    let mut met = Flags::new(alloc);
    for word in text.split_whitespace() {
        met.push(long(word, 0) > 0)?;
    }
    Ok(met)
}

/// The task of the lines of a block, with these parts.
fn task_of(
    alloc: Global,
    facts: u32,
    lines: &str,
    me: Agent,
    met: Flags,
    acts: ActList,
    far: FarList,
) -> Result<Task, OutOfMemory>
    requires few { facts ≤ 8 }
    requires met { length met ≤ 16 }
    requires me { me ≤ length met }
    requires few_acts { length acts ≤ 8 }
    requires acts { All (ActFits facts facts) acts }
    requires few_far { length far ≤ 8 }
    requires far { All (FarFits (length met) facts) far }
    ensures { IfOk result (λ task. task.publics ≡ facts) }
{
    let (start, goals) = (behind(lines, "start "), behind(lines, "goals "));
    let agents = met.len() as u16;
    Ok(Task {
        me,
        agents,
        publics: facts,
        privates: facts,
        start_pub: facts_in(alloc, facts, start, 0)?,
        start_priv: facts_in(alloc, facts, start, facts)?,
        goal_pub: facts_in(alloc, facts, goals, 0)?,
        goal_priv: facts_in(alloc, facts, goals, facts)?,
        acts,
        far,
        met,
    })
}

/// The task of a block with so many facts of each kind, if there is such an agent and there are few actions.
pub(crate) fn task(
    alloc: Global,
    facts: u32,
    head: &str,
    lines: &str,
) -> Result<Option<Task>, OutOfMemory>
    requires { facts ≤ 8 }
    ensures { IfOk result (λ found. IfSome found (λ task. task.publics ≡ facts)) }
{
    let me = agent_at(head, 0);
    let met = flags(alloc, part(head, 1))?;
    if met.len() > 16 || me.number() as usize > met.len() {
        return Ok(None);
    }
    let acts = acts(alloc, facts, lines)?;
    let far = far(alloc, facts, met.len() as u16, lines)?;
    if acts.len() > 8 || far.len() > 8 {
        return Ok(None);
    }
    Ok(Some(task_of(alloc, facts, lines, me, met, acts, far)?))
}
