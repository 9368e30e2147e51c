//! What a worker has to do.

ghost use Rattle.std.specs.Prelude.{◌≡◌};
ghost use Rattle.mp_team.specs.Works.{first_unended, is_bad, is_ended, lacks_memory};

use mp_nodes::{Nodes, Served};
use mp_post::Desk;
use mp_task::Heuristic;

/// Some agents of a team, and the desk that holds their parties.
#[derive(Drop)]
pub(crate) struct Work<H: Heuristic> {
    pub(crate) nodes: Nodes<H>,
    pub(crate) desk: Desk,
}

/// A work, and what the worker answered that served it.
#[derive(Drop)]
pub(crate) struct Answered<H: Heuristic> {
    pub(crate) work: Work<H>,
    pub(crate) served: Served,
}

/// Whether all agents of a work have ended.
pub(crate) fn is_ended(served: Served) -> bool
    ensures { result ≡ is_ended served }
{
    match served {
        Served::Ended => true,
        Served::Halted(_) => false,
        Served::Bad(_) => false,
        Served::OutOfMemory(_) => false,
    }
}

/// Whether memory ran out for an agent of a work.
pub(crate) fn lacks_memory(served: Served) -> bool
    ensures { result ≡ lacks_memory served }
{
    match served {
        Served::Ended => false,
        Served::Halted(_) => false,
        Served::Bad(_) => false,
        Served::OutOfMemory(_) => true,
    }
}

/// Whether an agent of a work found a message to be a bad one.
pub(crate) fn is_bad(served: Served) -> bool
    ensures { result ≡ is_bad served }
{
    match served {
        Served::Ended => false,
        Served::Halted(_) => false,
        Served::Bad(_) => true,
        Served::OutOfMemory(_) => false,
    }
}

/// Of two answers the first, unless that says that all agents have ended.
pub(crate) fn first_unended(served: Served, other: Served) -> Served
    ensures { result ≡ first_unended served other }
{
    match served {
        Served::Ended => other,
        Served::Halted(agent) => Served::Halted(agent),
        Served::Bad(agent) => Served::Bad(agent),
        Served::OutOfMemory(agent) => Served::OutOfMemory(agent),
    }
}
