//! What is read of the agents of a team that has run.

ghost use Rattle.std.specs.Prelude.{◌≡◌, ◌+◌, ◌<◌, ◌≤◌, length, slice_get, take, IsSomeAnd};
ghost use Rattle.std.specs.Option.{option_and_then};
ghost use Rattle.mp_machine.specs.AgentRecord.{given_verdict};
ghost use Rattle.mp_machine.specs.Verdicts.{proved_cost};
ghost use Rattle.mp_schedule.specs.Machines.{IsFree};
ghost use Rattle.mp_search.specs.Search.{tokens_given};
ghost use Rattle.mp_search.specs.StateKeys.{IsShown};
ghost use Rattle.mp_audit.specs.LastCut.{noted_entries};

use mp_machine::Machine;
use mp_search::Shown;
use mp_sets::Agent;
use mp_task::Heuristic;
use mp_tokens::Tokens;

/// The agent at a place of a team, counted from 0.
pub(crate) fn agent_at(place: usize) -> Agent
    requires { place < 16 }
    ensures { result ≡ place + 1 }
{
    match Agent::new(place as u16 + 1) {
        Some(agent) => agent,
        None => unreachable!(),
    }
}

/// What the plan costs that agent 1 has proved to be cheapest.
pub(crate) fn cost_of_plan<H: Heuristic>(machines: &[Machine<H>]) -> Option<u64>
    ensures { result ≡ option_and_then (λ m. proved_cost (given_verdict m.done)) (slice_get machines.now 0) }
{
    match machines {
        [first, ..] => first.cost(),
        [] => None,
    }
}

/// The private sets of an agent, by their tokens.
pub(crate) fn tokens_of<H: Heuristic>(machine: &Machine<H>) -> &Tokens
    requires { IsFree machine.now }
    ensures used { result.now.used ≡ tokens_given machine.now.done.task machine.now.done.search.kept }
    ensures size { result.now.size ≡ machine.now.done.task.privates }
{
    machine.search().tokens()
}

/// How many entries an agent had noted for its last snapshot.
pub(crate) fn noted_count<H: Heuristic>(machine: &Machine<H>) -> u64
    ensures within { result ≤ length machine.now.done.search.kept.entries }
    ensures entries { take result machine.now.done.search.kept.entries ≡ noted_entries machine.now.done }
{
    let all = machine.search().store().count();
    machine.noted().min(all)
}

/// The entry of a number of an agent.
pub(crate) fn shown_at<H: Heuristic>(machine: &Machine<H>, number: u64) -> Shown<'_>
    requires free { IsFree machine.now }
    requires inside { number < length machine.now.done.search.kept.entries }
    ensures entry { IsSomeAnd (slice_get machine.now.done.search.kept.entries number) (IsShown result) }
    ensures publics { result.publics.size ≡ machine.now.done.task.publics }
    ensures privates { result.mine.size ≡ machine.now.done.task.privates }
{
    machine.search().entry(number)
}
