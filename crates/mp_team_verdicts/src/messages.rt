//! The laws. Each is the contract of a function that does nothing.

ghost use Rattle.std.specs.Prelude.{◌≡◌, ◌≤◌, ℕ, true, List, Option, None, Ok, All, Contains};
ghost use Rattle.mp_logs.specs.Parts.{IsTeamHistory};
ghost use Rattle.mp_logs.specs.Served.{HasServed, Served};
ghost use Rattle.mp_machine.specs.AgentRecord.{AgentRecord, new_record};
ghost use Rattle.mp_machine.specs.LocalStep.{local, may};
ghost use Rattle.mp_machine.specs.Outgoing.{Step};
ghost use Rattle.mp_messages.specs.declared.history.Entry.{Entry};
ghost use Rattle.mp_messages.specs.declared.history.Event.{Event};
ghost use Rattle.mp_messages.specs.History.{part};
ghost use Rattle.mp_sets.specs.Numbers.{Numbers};
ghost use Rattle.mp_task.specs.AgentTask.{AgentTask};
ghost use Rattle.mp_world.specs.Events.{agent_of, local_of};
ghost use Rattle.mp_world.specs.Logs.{HasDone, IsLog};
ghost use Rattle.mp_world.specs.Team.{IsTeam, Team};
ghost use Rattle.mp_world.specs.World.{AreNumbered};
ghost use Rattle.mp_team_verdicts.specs.Others.{IsAnother, IsOfAgent};

/// An agent's messages go to other agents of its team, whatever it has taken from others before: those of its next step, and
/// all that it has put. Each message that it takes is one of another agent, and what it puts are bytes, at least one. So it
/// is with all entries of a log of the team.
pub fn messages_go_to_others()
    ensures step { (value : Numbers → Numbers → Option ℕ) (limit : ℕ) (t : AgentTask)
        (log : List Entry) (r : AgentRecord) (event : Event) (bytes : List ℕ) (s : Step)
        → 1 ≤ t.agents → HasDone value (new_record t value limit) log r
        → may r (local_of event) ≡ true → local value r (local_of event) bytes ≡ Ok s
        → All (λ x. IsAnother t x.to) s.out }
    ensures done { (value : Numbers → Numbers → Option ℕ) (limit : ℕ) (t : AgentTask)
        (log : List Entry) (last : AgentRecord)
        → 1 ≤ t.agents → HasDone value (new_record t value limit) log last
        → All (IsOfAgent t) log }
    ensures logs { (team : Team) (log : List Entry) (t : AgentTask)
        → AreNumbered team.tasks → IsLog team log → Contains team.tasks t
        → All (IsOfAgent t) (part log t.me) }
{}

/// In a legal history of the agents of a team no agent has taken a message that it found to be a bad one: neither where
/// some agents have done more than they have signed, nor where several are said to have taken one.
pub fn no_receipt_is_bad()
    ensures { (team : Team) (log : List Entry) (served : AgentTask → Served) (t : AgentTask)
        → IsTeam team → IsTeamHistory team.tasks log
        → ((u : AgentTask) → Contains team.tasks u
        → HasServed team.value team.limit u (part log u.me) (served u))
        → Contains team.tasks t → (served t).bad ≡ None }
{}
