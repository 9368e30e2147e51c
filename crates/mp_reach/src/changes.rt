//! What a team has found stays explored. Each law is the contract of a function that does nothing.

ghost use Rattle.std.specs.Prelude.{◌≡◌, ℕ, ◌+◌, List, Option, Some, None, ◌⊎◌, Contains};
ghost use Rattle.mp_task.specs.AgentTask.{AgentTask};
ghost use Rattle.mp_reach.specs.Changes.{Starts, Keeps, Closes, Sends, Takes};
ghost use Rattle.mp_reach.specs.Explored.{IsAt, HasEntry};
ghost use Rattle.mp_reach.specs.Found.{Entry as Seen, Message as Sending, Found};
ghost use Rattle.mp_reach.specs.LeadsOn.{
  Known,
  LeadsOn,
  IsRoot,
  IsTeamBound,
  IsTeamExplored,
  IsTeamHopeless,
  TeamReaches,
};

/// At the start what a team has found is explored, where each root has an entry or leads to no goal.
pub fn a_start_is_explored<I>()
    ensures { (tasks : List AgentTask) (found : Found I Known)
        → Starts found
        → ((k : Known) → IsRoot tasks k → HasEntry found k 0 ⊎ IsTeamHopeless tasks k)
        → ((i : I) (e : Seen Known) → IsAt found i e → IsTeamBound tasks e.state e.estimate)
        → IsTeamExplored tasks None found }
{}

/// What a team has found stays explored when an entry is kept, when messages are sent whose estimates are at most what
/// is still to be paid, and when a message is taken whose state has an entry or leads to no goal. When an entry is
/// closed it is exempt, until all that its state leads to is reached.
pub fn changes_keep_what_is_explored<I>()
    ensures keeps { (tasks : List AgentTask) (exempt : Option I) (old new : Found I Known)
        (n : Seen Known)
        → Keeps old new n → IsTeamBound tasks n.state n.estimate
        → IsTeamExplored tasks exempt old → IsTeamExplored tasks exempt new }
    ensures closes { (tasks : List AgentTask) (old new : Found I Known) (closed : I)
        → Closes old new closed
        → IsTeamExplored tasks None old → IsTeamExplored tasks (Some closed) new }
    ensures offered { (tasks : List AgentTask) (found : Found I Known) (closed : I)
        → ((e : Seen Known) (cost : ℕ) (k : Known) → IsAt found closed e
        → LeadsOn tasks e.state cost k → TeamReaches tasks found k (e.cost + cost))
        → IsTeamExplored tasks (Some closed) found → IsTeamExplored tasks None found }
    ensures sends { (tasks : List AgentTask) (exempt : Option I) (old new : Found I Known)
        → Sends old new
        → ((m : Sending Known) → Contains new.under_way m
        → Contains old.under_way m ⊎ IsTeamBound tasks m.state m.estimate)
        → IsTeamExplored tasks exempt old → IsTeamExplored tasks exempt new }
    ensures takes { (tasks : List AgentTask) (old new : Found I Known) (taken : Sending Known)
        → Takes old new taken
        → HasEntry old taken.state taken.cost ⊎ IsTeamHopeless tasks taken.state
        → IsTeamExplored tasks None old → IsTeamExplored tasks None new }
{}
