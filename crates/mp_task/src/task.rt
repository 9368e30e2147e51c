//! The nameless task of one agent.

ghost use Rattle.std.specs.Prelude.{◌≡◌, ◌<◌, length, slice_get, IsSomeAnd};
ghost use Rattle.mp_task.specs.Public.{is_public};

use crate::act::{ActList, FarList};
use mp_list::List;
use mp_sets::{Agent, FactList};
use std::marker::Model;

/// Whether something holds, for each agent in their order.
pub type Flags = List<bool>;

/// Tasks, for each agent in their order.
pub type TaskList = List<Task>;

/// What one agent knows of the united problem, without names: its own facts and actions by numbers, and the
/// public parts of the others' actions. It keeps to the limits of the program: at most 16 agents, 1,048,560
/// public and 65,535 private facts, 200,000 own actions and 3,000,000 parts of agents of the team, each of a cost
/// of at most 16,000,000.
pub struct Task {
    /// The agent whose task it is.
    pub me: Agent,
    /// How many agents the team has.
    pub agents: u16,
    /// How many public facts there are, numbered from 0 for all agents alike.
    pub publics: u32,
    /// How many private facts the agent has, numbered from 0.
    pub privates: u32,
    /// The public facts that are true at the start.
    pub start_pub: FactList,
    /// The private facts that are true at the start.
    pub start_priv: FactList,
    /// The public goals of all agents.
    pub goal_pub: FactList,
    /// The agent's private goals.
    pub goal_priv: FactList,
    /// The own actions by their numbers.
    pub acts: ActList,
    /// The public parts of the other agents' public actions, by rising agent.
    pub far: FarList,
    /// For each agent, whether its private goals are true at the start.
    pub met: Flags,
}

impl Drop for Task {
    fn drop(self) {
        let Task {
            me: _,
            agents: _,
            publics: _,
            privates: _,
            start_pub: _,
            start_priv: _,
            goal_pub: _,
            goal_priv: _,
            acts: _,
            far: _,
            met: _,
        } = self;
    }
}

impl Model for Task {
    ghost use Rattle.mp_task.specs.AgentTask.{AgentTask};

    ghost Value = { AgentTask };

    ghost use Rattle.mp_task.specs.Limits.{IsWithinLimits};
    ghost use Rattle.mp_task.specs.TaskFields.{agent_task};

    ghost view = { agent_task };

    ghost invariant = { λ t. IsWithinLimits (agent_task t) };
}

impl Task {
    /// Whether an own action is public: whether it has a public precondition, add or delete.
    pub fn is_public(&self, action: u32) -> bool
        requires { action < length self.now.acts }
        ensures { IsSomeAnd (slice_get self.now.acts action) (λ act. result ≡ is_public act) }
    {
        let act = &self.acts.as_slice()[action as usize];
        act.pre_pub.len() > 0 || act.add_pub.len() > 0 || act.del_pub.len() > 0
    }
}
