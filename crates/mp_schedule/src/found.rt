//! What the machines of a team found.

ghost use Rattle.std.specs.Prelude.{◌≡◌, false, true, map, slice_get, IfOk, IfSome, MatchOption};
ghost use Rattle.std.specs.Option.{option_map_or};
ghost use Rattle.mp_machine.specs.AgentRecord.{given_verdict};
ghost use Rattle.mp_schedule.specs.Finished.{AreOfRun, EndsBy};
ghost use Rattle.mp_world.specs.Answers.{answer_by, answer_of, outcome_of};
ghost use Rattle.mp_world.specs.declared.answer.Answer.TheVariants as answers;
ghost use Rattle.mp_world.specs.RoundRobin.{is_over};
ghost use Rattle.mp_world.specs.World.{World as WorldOf};

use crate::team::have_ended;
use mp_list::{Copied, List, OutOfMemory};
use mp_machine::{Ending, Machine};
use mp_task::Heuristic;
use mp_world::{Answer, Outcome, ShareList};
use std::alloc::Global;

/// What agent 1 answers, which has ended by its verdict.
fn answer_by<H: Heuristic>(first: &Machine<H>) -> Answer
    requires { EndsBy (given_verdict first.now.done) first.now.done.ending }
    ensures { result ≡ answer_by first.now.done.ending (given_verdict first.now.done) }
{
    match first.ending() {
        Ending::Going => Answer::Nothing,
        Ending::Solved { length } => match first.cost() {
            Some(cost) => Answer::Solved { cost, length },
            None => Answer::Nothing,
        },
        Ending::NoPlan => Answer::Unsolvable,
        Ending::Spent => Answer::Undecided,
    }
}

/// The answer of machines that have all ended.
fn answer<H: Heuristic>(machines: &[Machine<H>]) -> Answer
    requires { IfSome (slice_get machines.now 0) (λ m. EndsBy (given_verdict m.done) m.done.ending) }
    ensures { result ≡ option_map_or (λ m. answer_by m.done.ending (given_verdict m.done))
        (slice_get machines.now 0) answers.Nothing }
{
    match machines.first() {
        Some(first) => answer_by(first),
        None => Answer::Nothing,
    }
}

/// The share of each machine.
fn shares<H: Heuristic>(alloc: Global, machines: &[Machine<H>]) -> Result<ShareList, OutOfMemory>
    ensures { IfOk result (λ shares. shares ≡ map (λ m. m.done.share) machines.now) }
{
    let mut shares = List::with_capacity(alloc, machines.len())?;
    for machine in machines {
        shares.push(machine.share().copy()?)?;
    }
    Ok(shares)
}

/// What the machines of a team found: none exactly where one has not ended. They are in the order of the agents, after
/// a legal schedule.
pub fn outcome<H: Heuristic>(
    alloc: Global,
    machines: &[Machine<H>],
) -> Result<Option<Outcome>, OutOfMemory>
    requires { AreOfRun H.value machines.now }
    ensures { IfOk result (λ found. (last : WorldOf) → last.agents ≡ map (λ m. m.done) machines.now
        → MatchOption found (is_over last ≡ false) (λ o. (is_over last ≡ true) × (o ≡ outcome_of last))) }
{
    if !have_ended(machines) {
        return Ok(None);
    }
    Ok(Some(Outcome {
        answer: answer(machines),
        shares: shares(alloc, machines)?,
    }))
}
