//! The levels of the actions of a plan.

ghost use Rattle.std.specs.Prelude.{◌≡◌, ℕ, ◌+◌, ◌<◌, ◌==◌, [], length, slice_index_or, IfOk, OnOk, if◌then◌else◌};
ghost use Rattle.mp_steps.specs.Levelled.{IsLevelled};
ghost use Rattle.mp_steps.specs.Marks.{better as better_of, no_mark};
ghost use Rattle.mp_steps.specs.Numbered.{marked_by, marks_at as marks_of, met_by};

use crate::facts::{FactMarks, best_of, note};
use crate::mark::{Mark, NO_MARK, better};
use crate::put::put;
use crate::role::Role;
use mp_checker::StepSink;
use mp_list::OutOfMemory;
use std::alloc::Global;

/// The mark of an agent.
fn agent_mark(agents: &[Mark], agent: u16) -> Mark
    ensures { result ≡ slice_index_or agents.now agent no_mark }
{
    match agents.get(agent as usize) {
        Some(mark) => *mark,
        None => NO_MARK,
    }
}

/// The levels of the actions of a plan that have come so far.
#[derive(Drop)]
pub struct Levels {
    /// For each action the greatest level of the earlier actions that clash with it, and the first such action.
    pub mets: Vec<Mark>,
    /// For each fact the greatest levels of the actions that have it.
    pub facts: Vec<FactMarks>,
    /// For each agent the greatest level of its actions.
    pub agents: Vec<Mark>,
}

/// No levels, with memory for those of so many actions. Refuses only for want of memory.
pub fn no_levels(alloc: Global, count: usize) -> Result<Levels, OutOfMemory>
    ensures { IfOk result (λ levels. IsLevelled [] 0 levels.mets.items levels.facts.items levels.agents.items) }
{
    Ok(Levels {
        mets: Vec::with_capacity(alloc, count)?,
        facts: Vec::new(alloc),
        agents: Vec::new(alloc),
    })
}

/// The best mark of the actions so far that clash with an action.
fn met_of(levels: &Levels, agent: u16, needs: &[u32], adds: &[u32], dels: &[u32]) -> Mark
    ensures { result ≡ met_by levels.now.facts.items levels.now.agents.items
        (record { agent = agent; needs = needs.now; adds = adds.now; dels = dels.now }) }
{
    let facts = levels.facts.as_slice();
    let own = agent_mark(levels.agents.as_slice(), agent);
    let needed = best_of(facts, Role::Needed, needs, own);
    let added = best_of(facts, Role::Added, adds, needed);
    best_of(facts, Role::Deleted, dels, added)
}

/// The mark of an action of this time, whose level is 1 more than the greatest that it meets.
fn mark_after(met: Mark, time: u64) -> Mark
    requires { met.level < time }
    ensures { result ≡ record { level = met.level + 1; time = time } }
{
    Mark {
        level: met.level + 1,
        time,
    }
}

/// Marks the facts of an action.
fn note_facts(
    facts: &mut Vec<FactMarks>,
    needs: &[u32],
    adds: &[u32],
    dels: &[u32],
    mark: Mark,
) -> Result<(), OutOfMemory>
    ensures { OnOk result ((agent : ℕ) (f : ℕ) → marks_of facts.new.items f ≡ marked_by mark
        (record { agent = agent; needs = needs.now; adds = adds.now; dels = dels.now }) f (marks_of facts.old.items f)) }
{
    note(facts, Role::Needed, needs, mark)?;
    note(facts, Role::Added, adds, mark)?;
    note(facts, Role::Deleted, dels, mark)
}

/// Marks an agent.
fn note_agent(agents: &mut Vec<Mark>, agent: u16, mark: Mark) -> Result<(), OutOfMemory>
    ensures { OnOk result ((a : ℕ) → slice_index_or agents.new.items a no_mark
        ≡ (if agent == a then better_of (slice_index_or agents.old.items agent no_mark) mark
        else slice_index_or agents.old.items a no_mark)) }
{
    let new = better(agent_mark(agents.as_slice(), agent), mark);
    put(agents, agent as usize, NO_MARK, new)
}

/// The time that an action takes is that of looking at each of its facts once.
impl StepSink for Levels {
    ghost have_come = { λ levels steps.
        IsLevelled steps (length steps) levels.mets.items levels.facts.items levels.agents.items };

    fn take(
        &mut self,
        agent: u16,
        needs: &[u32],
        adds: &[u32],
        dels: &[u32],
    ) -> Result<(), OutOfMemory> {
        let met = met_of(self, agent, needs, adds, dels);
        let mark = mark_after(met, self.mets.len() as u64 + 1);
        note_facts(&mut self.facts, needs, adds, dels, mark)?;
        note_agent(&mut self.agents, agent, mark)?;
        self.mets.push(met)?;
        Ok(())
    }
}
