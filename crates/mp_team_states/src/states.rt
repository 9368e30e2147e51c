//! Laws of the states that the agents of a team keep and send. Each is the contract of a function
//! that does nothing.

ghost use Rattle.std.specs.Prelude.{◌≡◌, ◌↔◌, ℕ, true, slice_get, List, Option, Some, Ok, Contains};
ghost use Rattle.mp_machine.specs.AgentRecord.{AgentRecord};
ghost use Rattle.mp_machine.specs.Outgoing.{without_messages};
ghost use Rattle.mp_machine.specs.Taking.{took, with_state};
ghost use Rattle.mp_messages.specs.Spelling.{spelling};
ghost use Rattle.mp_messages.specs.declared.history.Event.{Event};
ghost use Rattle.mp_messages.specs.declared.message.Message.TheVariants as kinds;
ghost use Rattle.mp_messages.specs.declared.message.State.{State};
ghost use Rattle.mp_search.specs.AgentState.{AgentState};
ghost use Rattle.mp_search.specs.Receipt.{is_byte_right, is_token_given, state_of};
ghost use Rattle.mp_search.specs.Spelled.{message_of};
ghost use Rattle.mp_sets.specs.Numbers.{Numbers};
ghost use Rattle.mp_sets.specs.declared.tag.Tag.{Tag};
ghost use Rattle.mp_task.specs.AgentTask.{AgentTask};
ghost use Rattle.mp_task.specs.Plan.{IsJointState, private_of, task_of};
ghost use Rattle.mp_store.specs.Sent.{sent_entry};
ghost use Rattle.mp_store.specs.declared.entry.Entry.{Entry};
ghost use Rattle.mp_team_states.specs.Further.{HaveGrown, HaveSoundRecords};
ghost use Rattle.mp_team_states.specs.Growing.{BeginsWith};
ghost use Rattle.mp_team_states.specs.Sound.{
  AreStatesSound,
  AreTold,
  IsSentState,
  IsSoundState,
  IsStateOf,
  IsTold,
};
ghost use Rattle.mp_world.specs.IsRun.{IsRun};
ghost use Rattle.mp_world.specs.Joint.{joint, joint_told, sets_of, told_by};
ghost use Rattle.mp_world.specs.Steps.{IsStepOf};
ghost use Rattle.mp_world.specs.Team.{AreTeamTasks, IsTeam, Team};
ghost use Rattle.mp_world.specs.Values.{Values};
ghost use Rattle.mp_world.specs.World.{IsTeamWorld, World, agent_at, start_world, under_way};

/// At each event the agents keep their entries and their sent numbers. So each agent's list of sets
/// with tokens only grows at its end: what a tag told, which states are known and were sent, and
/// which joint states they are, stays so.
pub fn events_keep_what_was_told()
    ensures events { (value : Values) (w next : World)
        (event : Event)
        → IsStepOf value w event next → HaveGrown w next }
    ensures sets { (w next : World) → HaveSoundRecords w → HaveGrown w next
        → (agent : ℕ) → BeginsWith (sets_of w agent) (sets_of next agent) }
    ensures tags { (w next : World) → HaveSoundRecords w → HaveGrown w next
        → (agent : ℕ) (tag : Tag) → IsTold w agent tag
        → IsTold next agent tag × (told_by next (agent, tag) ≡ told_by w (agent, tag)) }
    ensures states { (w next : World) → HaveSoundRecords w → HaveGrown w next
        → (t : AgentTask) (s : AgentState) → IsStateOf w t s
        → IsStateOf next t s × (joint next t.me s ≡ joint w t.me s) }
    ensures sent { (w next : World) → HaveSoundRecords w → HaveGrown w next
        → (t : AgentTask) (m : State) → IsSentState w t m → IsSentState next t m }
    ensures messages { (w next : World) → HaveSoundRecords w → HaveGrown w next
        → (m : State) → AreTold w m.tags
        → AreTold next m.tags × (joint_told next m ≡ joint_told w m) }
{}

/// In every world that a legal schedule leads to, what the agents keep is sound, and so is each
/// message of a state that is under way. The world at the start is so, and each event keeps it.
pub fn states_stay_sound()
    ensures start { (team : Team) → IsTeam team → AreStatesSound team.tasks (start_world team) }
    ensures events { (value : Values) (tasks : List AgentTask) (w next : World) (event : Event)
        → AreTeamTasks tasks → IsTeamWorld tasks w → IsStepOf value w event next
        → AreStatesSound tasks w → AreStatesSound tasks next }
    ensures runs { (team : Team) (schedule : List Event) (w : World)
        → IsRun team schedule w → AreStatesSound team.tasks w }
    ensures records { (tasks : List AgentTask) (w : World)
        → AreTeamTasks tasks → IsTeamWorld tasks w → AreStatesSound tasks w → HaveSoundRecords w }
{}

/// No agent finds a state that another one sent to be a bad message: what is read as a state was
/// sent, and a state that was sent is read, its receiver gave the token in its own place, and the
/// met byte there is right.
pub fn sent_states_are_good()
    ensures read { (tasks : List AgentTask) (w : World) (from to : ℕ) (u : AgentTask)
        (r : AgentRecord) (bytes : List ℕ) (m : State)
        → AreTeamTasks tasks → IsTeamWorld tasks w → AreStatesSound tasks w
        → task_of tasks from ≡ Some u → agent_at w to ≡ Some r
        → Contains (under_way w from to) bytes
        → message_of r.task.agents r.task.publics bytes ≡ Some (kinds.State m)
        → (bytes ≡ spelling (kinds.State m)) × IsSoundState w u m }
    ensures taken { (value : Numbers → Numbers → Option ℕ) (tasks : List AgentTask) (w : World)
        (from to : ℕ) (u : AgentTask) (r : AgentRecord) (m : State)
        → AreTeamTasks tasks → IsTeamWorld tasks w → AreStatesSound tasks w
        → task_of tasks from ≡ Some u → agent_at w to ≡ Some r → IsSoundState w u m
        → (is_token_given r.task r.search.kept m ≡ true)
        × (is_byte_right r.task r.search.kept m ≡ true)
        × (took value r from (spelling (kinds.State m)) ≡ Ok (without_messages (with_state value r from m))) }
{}

/// A state that an agent knows is a joint state of the team, with the agent's own facts in its
/// place, and equal joint states are equal states of that agent. A message tells of the joint state
/// of the entry that was sent, and that is the joint state that a receiver knows then.
pub fn states_are_joint_states()
    ensures joint { (tasks : List AgentTask) (w : World) (agent : ℕ) (r : AgentRecord)
        (s : AgentState)
        → AreTeamTasks tasks → IsTeamWorld tasks w → agent_at w agent ≡ Some r
        → IsStateOf w r.task s
        → IsJointState tasks (joint w agent s) × (private_of (joint w agent s) agent ≡ s.mine) }
    ensures equal { (tasks : List AgentTask) (w : World) (agent : ℕ) (r : AgentRecord)
        (a b : AgentState)
        → AreTeamTasks tasks → IsTeamWorld tasks w → AreStatesSound tasks w
        → agent_at w agent ≡ Some r → IsStateOf w r.task a → IsStateOf w r.task b
        → (a ≡ b) ↔ (joint w agent a ≡ joint w agent b) }
    ensures sent { (tasks : List AgentTask) (w : World) (agent : ℕ) (r : AgentRecord) (m : State)
        (n : ℕ) (e : Entry AgentState)
        → AreTeamTasks tasks → IsTeamWorld tasks w → AreStatesSound tasks w
        → agent_at w agent ≡ Some r → IsSentState w r.task m
        → sent_entry m.sent r.search.kept ≡ Some n → slice_get r.search.kept.entries n ≡ Some e
        → (joint w agent e.key ≡ joint_told w m) × (m.g ≡ e.g) × (m.h ≡ e.h) }
    ensures received { (tasks : List AgentTask) (w : World) (from to : ℕ) (u : AgentTask)
        (r : AgentRecord) (m : State)
        → AreTeamTasks tasks → IsTeamWorld tasks w → AreStatesSound tasks w
        → task_of tasks from ≡ Some u → agent_at w to ≡ Some r → IsSoundState w u m
        → IsStateOf w r.task (state_of r.task r.search.kept m)
        × (joint w to (state_of r.task r.search.kept m) ≡ joint_told w m) }
{}
