//! What is true at the start.

ghost use Rattle.std.specs.Prelude.{◌≡◌, ◌||◌, ℕ, List as ListOf, IfOk, OnOk};
ghost use Rattle.std.specs.List.{list_any};
ghost use Rattle.mp_joint.specs.declared.fact.NamedFact.{NamedFact as Named};
ghost use Rattle.mp_checker.specs.AgentView.{AreOf, names_of};
ghost use Rattle.mp_checker.specs.At.{is_true, numbers_of};
ghost use Rattle.mp_checker.specs.Marked.{true_facts};
ghost use Rattle.mp_checker.specs.Team.{starts};

use crate::atoms::numbered_atom;
use crate::factor::AgentFactor;
use crate::facts::{Facts, no_facts};
use crate::places::set;
use crate::room::Room;
use mp_list::{List, OutOfMemory};
use std::alloc::Global;

/// Makes the initial facts of an agent true.
fn add_start(
    alloc: Global,
    factor: &AgentFactor<'_, '_>,
    facts: &mut Facts,
    room: &mut Room,
) -> Result<(), OutOfMemory>
    ensures { OnOk result ((f : Named) → is_true (true_facts facts.new) (numbers_of (names_of factor.now) f)
        ≡ (starts factor.now f || is_true (true_facts facts.old) (numbers_of (names_of factor.now) f))) }
{
    let params = List::new(alloc);
    for atom in factor.checked.factor().problem.init.as_slice() {
        let numbered = numbered_atom(alloc, factor.names, &factor.privates, &params, atom)?;
        set(
            alloc,
            facts,
            &mut room.numbers,
            factor.agent,
            &[],
            &numbered,
        )?;
    }
    Ok(())
}

/// The facts that are true at the start, of a team with these names. Refuses only for want of memory.
pub fn start(
    alloc: Global,
    team: &[AgentFactor<'_, '_>],
    room: &mut Room,
) -> Result<Facts, OutOfMemory>
    ensures { IfOk result (λ facts. (names : ListOf (ListOf ℕ)) → AreOf names team.now → (f : Named)
        → is_true (true_facts facts) (numbers_of names f) ≡ list_any (λ v. starts v f) team.now) }
{
    let mut facts = no_facts(alloc);
    for factor in team {
        add_start(alloc, factor, &mut facts, room)?;
    }
    Ok(facts)
}
