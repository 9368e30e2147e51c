//! What a finished run shows passes the audit. The law is the contract of a function that does nothing.

ghost use Rattle.std.specs.Prelude.{◌≡◌, ◌≤◌, ◌^◌, ℕ, List, All, map};
ghost use Rattle.mp_messages.specs.declared.history.Event.{Event};
ghost use Rattle.mp_world.specs.declared.answer.Answer.TheVariants.{Solved};
ghost use Rattle.mp_world.specs.Answers.{answer_of};
ghost use Rattle.mp_world.specs.IsRun.{IsRun};
ghost use Rattle.mp_world.specs.Team.{Team};
ghost use Rattle.mp_world.specs.World.{World};
ghost use Rattle.mp_team_states.specs.Expansions.{nothing_known};
ghost use Rattle.mp_audit.specs.declared.certificate.Certificate.{Certificate};
ghost use Rattle.mp_audit.specs.Audited.{Audited};
ghost use Rattle.mp_audit.specs.LastCut.{last_bounds, said_by};

/// Where a team has ended with a cheapest plan, and its heuristic knew nothing, a certificate of the plan's cost with the
/// bounds of the last cut is one that an audit finds to hold: of each state that an agent had noted, the cheapest entry's.
/// Its bounds are from 1 to 2^60, and its cost is at most 2^60.
pub fn last_cuts_pass_the_audit()
    ensures passes { (team : Team) (schedule : List Event) (w : World) (cost steps : ℕ)
        (certificate : Certificate)
        → team.value ≡ nothing_known → IsRun team schedule w → answer_of w ≡ Solved cost steps
        → certificate.cost ≡ cost → map said_by certificate.bounds ≡ last_bounds w cost
        → Audited team.tasks certificate }
    ensures fits { (team : Team) (schedule : List Event) (w : World) (cost steps : ℕ)
        (certificate : Certificate)
        → team.value ≡ nothing_known → IsRun team schedule w → answer_of w ≡ Solved cost steps
        → certificate.cost ≡ cost → map said_by certificate.bounds ≡ last_bounds w cost
        → (certificate.cost ≤ 2 ^ 60)
        × All (λ b. (1 ≤ b.bound) × (b.bound ≤ 2 ^ 60)) certificate.bounds }
{}
