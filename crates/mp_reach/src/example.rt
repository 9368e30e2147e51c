//! What a worked team may have found. The law is the contract of a function that does nothing.

ghost use Rattle.std.specs.Prelude.{None};
ghost use Rattle.mp_order.specs.Examples.{cook_and_waiter};
ghost use Rattle.mp_reach.specs.Examples.{begun, forgotten};
ghost use Rattle.mp_reach.specs.LeadsOn.{IsTeamExplored};

/// Where each agent has its initial state and nothing is expanded, what is found is explored. It isn't where both
/// states are expanded and what they lead to was forgotten, since there is a plan.
pub fn worked_team_begins_explored()
    ensures begun { IsTeamExplored cook_and_waiter None begun }
    ensures forgotten { IsTeamExplored cook_and_waiter None forgotten → ⊥ }
{}
