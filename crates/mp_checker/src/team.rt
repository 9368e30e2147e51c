//! The factors of a team in numbers.

ghost use Rattle.std.specs.Prelude.{◌≡◌, ◌≤◌, length, IfOk};
ghost use Rattle.std.specs.List.{flat_map};
ghost use Rattle.std.specs.Option.{option_copied};
ghost use Rattle.mp_checker.specs.AgentView.{Covers, views_from, at_agent};
ghost use Rattle.mp_checker.specs.Words.{names_of_factor};

use crate::factor::AgentFactor;
use mp_list::OutOfMemory;
use mp_sets::Agent;
use mp_sexp::NameTable;
use mp_typing::CheckedFactor;
use std::alloc::Global;

/// The factors of a team in numbers, where these are its names. Refuses only for want of memory.
pub fn numbered_team<'n, 'a>(
    alloc: Global,
    names: &'n NameTable<'a>,
    factors: &'a [CheckedFactor],
) -> Result<Vec<AgentFactor<'n, 'a>>, OutOfMemory>
    requires few { length factors.now ≤ 16 }
    requires covers { Covers names.now (flat_map names_of_factor factors.now) }
    ensures { IfOk result (λ team. team.items ≡ views_from names.now 1 factors.now) }
{
    let mut team = Vec::with_capacity(alloc, factors.len())?;
    for (place, factor) in factors.iter().enumerate() {
        let agent = Agent::new(place as u16 + 1).unwrap();
        team.push(AgentFactor::new(alloc, names, agent, factor)?)?;
    }
    Ok(team)
}

/// The factor of an agent: none exactly where it has none.
pub fn factor_of<'t, 'n, 'a>(
    team: &'t [AgentFactor<'n, 'a>],
    agent: Agent,
) -> Option<&'t AgentFactor<'n, 'a>>
    ensures { option_copied result ≡ at_agent team.now agent }
{
    team.get(agent.number() as usize - 1)
}
