//! The certificate of a run that has ended.

ghost use Rattle.std.specs.Prelude.{◌≡◌, false, IfOk, IsSome};
ghost use Rattle.mp_world.specs.Answers.{answer_of};
ghost use Rattle.mp_audit.specs.declared.verdict.AuditVerdict.TheVariants.{Holds};
ghost use Rattle.mp_audit.specs.Failures.{verdict_on};
ghost use Rattle.mp_audit.specs.Fits.{AgentsFit, CertificateFits};
ghost use Rattle.mp_certify.specs.Certified.{solved_cost, IsCertificateOf};

use crate::bounds::all_bounds;
use crate::team::cost_of_plan;
use mp_audit::Certificate;
use mp_list::OutOfMemory;
use mp_schedule::World;
use mp_task::Blind;
use std::alloc::Global;

/// The certificate of a team that has ended with a cheapest plan and whose heuristic knew nothing: the plan's cost, and of each
/// agent the states that it had noted for the last snapshot, each at what is still missing of that cost behind its cheapest
/// entry, where that is at least 1. The entries stand agent by agent, and within an agent in the order of its entries.
///
/// An audit with the team's tasks says that the certificate holds, and it fits these tasks. It shows private facts of all
/// agents. Refuses only for want of memory.
pub fn certificate(alloc: Global, world: &World<Blind>) -> Result<Certificate, OutOfMemory>
    requires going { world.now.failed ≡ false }
    requires solved { IsSome (solved_cost (answer_of world.now.world)) }
    ensures certified { IfOk result (IsCertificateOf world.now.world) }
    ensures holds { IfOk result (λ c. verdict_on world.now.tasks c ≡ Holds) }
    ensures fits { IfOk result (CertificateFits world.now.tasks) }
    ensures agents { IfOk result (AgentsFit world.now.tasks) }
{
    world.comes_from_a_run();
    let agents = world.machines();
    let Some(cost) = cost_of_plan(agents) else {
        unreachable!()
    };
    let bounds = all_bounds(alloc, agents, cost)?;
    Ok(Certificate { cost, bounds })
}
