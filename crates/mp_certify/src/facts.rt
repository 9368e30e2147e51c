//! The private facts that the tags of a state stand for.

ghost use Rattle.std.specs.Prelude.{◌≡◌, ◌==◌, ◌≤◌, [], length, map, All, IfOk, if◌then◌else◌};
ghost use Rattle.std.specs.List.{enumerate_from};
ghost use Rattle.mp_task.specs.Limits.{AllLess};
ghost use Rattle.mp_tokens.specs.Order.{set_at};
ghost use Rattle.mp_search.specs.Search.{tokens_given};
ghost use Rattle.mp_world.specs.Joint.{private_facts};
ghost use Rattle.mp_schedule.specs.Machines.{tasks_of, world_of, IsFree};
ghost use Rattle.mp_audit.specs.Audited.{set_of};
ghost use Rattle.mp_audit.specs.Fits.{PrivatesFit};
ghost use Rattle.mp_certify.specs.Team.{privates_of};

use crate::team::tokens_of;
use mp_audit::FactLists;
use mp_list::{List, OutOfMemory};
use mp_machine::Machine;
use mp_sets::{Agent, BitsView, FactList, Tag};
use mp_task::Heuristic;
use mp_tokens::Tokens;
use std::alloc::Global;

/// The private facts that a token stands for: none where no set has it.
fn facts_told(alloc: Global, tokens: &Tokens, token: u64) -> Result<FactList, OutOfMemory>
    ensures facts { IfOk result (λ list. set_of list ≡ set_at tokens.now.used token) }
    ensures fits { IfOk result (AllLess tokens.now.size) }
{
    let Some(index) = tokens.set_of(token) else {
        return Ok(FactList::new(alloc));
    };
    let list = tokens.set(index).list()?;
    Ok(list)
}

/// Whether a number is that of an agent.
fn is_number_of(number: usize, agent: Agent) -> bool
    ensures { result ≡ (number == agent) }
{
    number == agent.number() as usize
}

/// The private facts of the agent of a number in a state of an agent: its own facts where it is that agent, and else those that
/// its token stands for.
fn facts_of<H: Heuristic>(
    alloc: Global,
    machine: &Machine<H>,
    number: usize,
    me: Agent,
    mine: &BitsView<'_>,
    token: u64,
) -> Result<FactList, OutOfMemory>
    requires free { IsFree machine.now }
    requires own { number ≡ me → mine.now.size ≡ machine.now.done.task.privates }
    ensures facts { IfOk result (λ list. set_of list ≡ (if number == me then mine.now.members
        else set_at (tokens_given machine.now.done.task machine.now.done.search.kept) token)) }
    ensures fits { IfOk result (AllLess machine.now.done.task.privates) }
{
    if is_number_of(number, me) {
        let own = mine.list()?;
        return Ok(own);
    }
    let told = facts_told(alloc, tokens_of(machine), token)?;
    Ok(told)
}

/// The private facts of each agent in a state of one of them, by its own facts and the tags of the others.
pub(crate) fn private_lists<H: Heuristic>(
    alloc: Global,
    machines: &[Machine<H>],
    me: Agent,
    mine: &BitsView<'_>,
    tags: &[Tag],
) -> Result<FactLists, OutOfMemory>
    requires few { length machines.now ≤ 16 }
    requires free { All IsFree machines.now }
    requires own { mine.now.size ≡ privates_of machines.now me }
    requires tags { length tags.now ≡ length machines.now }
    ensures facts { IfOk result (λ lists. map set_of lists
        ≡ map (private_facts (world_of machines.now []) me mine.now.members) (enumerate_from 1 tags.now)) }
    ensures fits { IfOk result (PrivatesFit (tasks_of machines.now)) }
{
    let mut lists = List::with_capacity(alloc, machines.len())?;
    for (place, machine) in machines.iter().enumerate() {
        let tag = tags[place];
        let list = facts_of(alloc, machine, place + 1, me, mine, tag.token)?;
        lists.push(list)?;
    }
    Ok(lists)
}
