//! Laws of the parts of ordered plans. Each is the contract of a function that does nothing.

ghost use Rattle.std.specs.Prelude.{◌≡◌, ◌≢◌, ℕ, [], ◌++◌, List, Some, All, Contains, IsTrue};
ghost use Rattle.mp_runs.specs.System.{state_after};
ghost use Rattle.mp_sets.specs.Numbers.{holds};
ghost use Rattle.mp_task.specs.declared.act.Far.{Far as Part};
ghost use Rattle.mp_task.specs.AgentTask.{AgentTask};
ghost use Rattle.mp_task.specs.Agreement.{IsTeamMember};
ghost use Rattle.mp_task.specs.Met.{is_met};
ghost use Rattle.mp_task.specs.Plan.{JointState, TaskStep, private_of, team_system};
ghost use Rattle.mp_order.specs.Ordered.{IsBlock, IsClosingGroup, AreClosingGroups};
ghost use Rattle.mp_order.specs.Steps.{IsPrivateStep, ArePrivateThenPublic};

/// The steps of a block are private ones of its agent, or none, and then a public one, and lead to the state that the
/// block reaches.
pub fn blocks_lead()
    ensures steps { (tasks : List AgentTask) (agent : ℕ) (s reached : JointState)
        (steps : List TaskStep)
        → IsBlock tasks agent s steps reached → ArePrivateThenPublic tasks agent steps }
    ensures reached { (tasks : List AgentTask) (agent : ℕ) (s reached : JointState)
        (steps : List TaskStep)
        → IsBlock tasks agent s steps reached
        → state_after (team_system tasks) s steps ≡ Some reached }
{}

/// The state before a block concerns its agent: each other agent has the public part of an action of that agent whose
/// preconditions are true there.
pub fn blocks_concern_their_agents()
    ensures { (tasks : List AgentTask) (agent : ℕ) (t : AgentTask) (s reached : JointState)
        (steps : List TaskStep)
        → IsTeamMember tasks t → t.me ≢ agent → IsBlock tasks agent s steps reached
        → (part : Part) × Contains t.far part × (part.by ≡ agent)
        × IsTrue (holds s.publics part.pre) }
{}

/// The steps of a closing group are private ones of its agent. They lead to the state that the group reaches, where
/// the agent's private goals are true, and no fewer of them do. Closing groups one after another lead to the
/// state that they reach.
pub fn closing_groups_lead()
    ensures steps { (tasks : List AgentTask) (t : AgentTask) (s reached : JointState)
        (steps : List TaskStep)
        → IsClosingGroup tasks t s steps reached → All (IsPrivateStep tasks t.me) steps }
    ensures reached { (tasks : List AgentTask) (t : AgentTask) (s reached : JointState)
        (steps : List TaskStep)
        → IsClosingGroup tasks t s steps reached
        → state_after (team_system tasks) s steps ≡ Some reached }
    ensures goals { (tasks : List AgentTask) (t : AgentTask) (s reached : JointState)
        (steps : List TaskStep)
        → IsClosingGroup tasks t s steps reached → IsTrue (is_met t (private_of reached t.me)) }
    ensures no_fewer { (tasks : List AgentTask) (t : AgentTask) (s reached early : JointState)
        (front later : List TaskStep)
        → IsClosingGroup tasks t s (front ++ later) reached
        → state_after (team_system tasks) s front ≡ Some early
        → IsTrue (is_met t (private_of early t.me)) → later ≡ [] }
    ensures all { (tasks others : List AgentTask) (s reached : JointState) (steps : List TaskStep)
        → AreClosingGroups tasks others s steps reached
        → state_after (team_system tasks) s steps ≡ Some reached }
{}
