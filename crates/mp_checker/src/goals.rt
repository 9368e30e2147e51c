//! The goals of a team.

ghost use Rattle.std.specs.Prelude.{◌≡◌, ℕ, List as ListOf, IfOk, OnOk};
ghost use Rattle.std.specs.List.{flat_map};
ghost use Rattle.mp_checker.specs.AgentView.{AreOf, names_of};
ghost use Rattle.mp_checker.specs.At.{named_state};
ghost use Rattle.mp_checker.specs.Marked.{HaveStayed, true_facts};
ghost use Rattle.mp_checker.specs.Taken.{failing as failing_of};
ghost use Rattle.mp_checker.specs.Team.{goals_of};

use crate::atoms::numbered_literals;
use crate::factor::AgentFactor;
use crate::facts::Facts;
use crate::room::Room;
use crate::taken::{Asked, failing};
use mp_joint::SignedFact;
use mp_list::{List, OutOfMemory};
use std::alloc::Global;

/// The first goal of an agent that does not hold: none where all hold.
fn failing_goal_of(
    alloc: Global,
    factor: &AgentFactor<'_, '_>,
    facts: &mut Facts,
    room: &mut Room,
) -> Result<Option<SignedFact>, OutOfMemory>
    ensures failing { IfOk result (λ first. first
        ≡ failing_of (named_state (names_of factor.now) (true_facts facts.old)) (goals_of factor.now)) }
    ensures stays { OnOk result (HaveStayed facts.old facts.new) }
{
    let params = List::new(alloc);
    let objects = List::new(alloc);
    let goals = &factor.checked.factor().problem.goals;
    let literals = numbered_literals(alloc, factor.names, &factor.privates, &params, goals)?;
    room.args.clear();
    let asked = Asked {
        literals: &literals,
        written: goals,
        params: &params,
        objects: &objects,
    };
    failing(alloc, factor, facts, room, asked)
}

/// The first goal of a team with these names that does not hold: none where all hold. Refuses only for want of memory.
pub fn failing_goal(
    alloc: Global,
    team: &[AgentFactor<'_, '_>],
    facts: &mut Facts,
    room: &mut Room,
) -> Result<Option<SignedFact>, OutOfMemory>
    ensures { IfOk result (λ first. (names : ListOf (ListOf ℕ)) → AreOf names team.now
        → first ≡ failing_of (named_state names (true_facts facts.old)) (flat_map goals_of team.now)) }
{
    for factor in team {
        if let Some(first) = failing_goal_of(alloc, factor, facts, room)? {
            return Ok(Some(first));
        }
    }
    Ok(None)
}
