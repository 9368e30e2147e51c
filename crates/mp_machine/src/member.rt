//! What an agent keeps as a member of its team.

ghost use Rattle.std.specs.Prelude.{◌≡◌, false, []};
ghost use Rattle.mp_task.specs.Limits.{IsWithinLimits};
ghost use Rattle.mp_snapshot.specs.Rules.{before_all};

use crate::event::Ending;
use mp_sets::Agent;
use mp_snapshot::Snapshot;
use mp_task::Task;
use mp_trail::{Share, Trail};
use std::alloc::Global;

/// Every number of a message is below it.
pub(crate) const LIMIT: u64 = 1 << 60;

/// An agent as a member of its team: who it is, and what it has done beside its search.
pub(crate) struct Member {
    pub(crate) alloc: Global,
    /// The agent itself.
    pub(crate) me: Agent,
    /// How many agents the team has.
    pub(crate) agents: u16,
    /// How many public facts there are.
    pub(crate) publics: u32,
    /// What it keeps of the last snapshot.
    pub(crate) snapshot: Snapshot,
    /// How many entries it had when that snapshot began here.
    pub(crate) noted: u64,
    /// The goal entry that it had then, of which it would walk a plan back.
    pub(crate) goal: Option<u64>,
    /// Whether a pick has come.
    pub(crate) picked: bool,
    /// The own actions that it has noted of the plan that is walked back.
    pub(crate) trail: Trail,
    pub(crate) ending: Ending,
    /// Its actions of the plan, once there is one.
    pub(crate) share: Share,
}

impl Drop for Member {
    fn drop(self) {
        let Member {
            alloc: _,
            me: _,
            agents: _,
            publics: _,
            snapshot: _,
            noted: _,
            goal: _,
            picked: _,
            trail: _,
            ending: _,
            share: _,
        } = self;
    }
}

/// An agent at the start.
pub(crate) fn new_member(alloc: Global, task: &Task) -> Member
    ensures limits { IsWithinLimits task.now }
    ensures member { result ≡ record {
      alloc = alloc;
      me = task.now.me;
      agents = task.now.agents;
      publics = task.now.publics;
      snapshot = before_all task.now.me task.now.agents;
      noted = 0;
      goal = None;
      picked = false;
      trail = [];
      ending = Ending.Going;
      share = [];
    } }
{
    Member {
        alloc,
        me: task.me,
        agents: task.agents,
        publics: task.publics,
        snapshot: Snapshot::new(task.me, task.agents),
        noted: 0,
        goal: None,
        picked: false,
        trail: Trail::new(alloc),
        ending: Ending::Going,
        share: Share::new(alloc),
    }
}
