//! What an audit shows. Each law is the contract of a function that does nothing.

ghost use Rattle.std.specs.Prelude.{◌≡◌, ◌≤◌, ◌↔◌, List};
ghost use Rattle.mp_task.specs.AgentTask.{AgentTask};
ghost use Rattle.mp_task.specs.Agreement.{AreNumbered, IsTeamMember};
ghost use Rattle.mp_task.specs.Plan.{TaskSolves, TaskStep, task_cost};
ghost use Rattle.mp_audit.specs.declared.certificate.Certificate.{Certificate};
ghost use Rattle.mp_audit.specs.declared.verdict.AuditVerdict.TheVariants.{Holds};
ghost use Rattle.mp_audit.specs.Audited.{Audited};
ghost use Rattle.mp_audit.specs.Failures.{verdict_on};

/// Whoever made a certificate: where an audit of it holds, each plan of a team of at least one agent that solves costs at
/// least what the certificate says.
pub fn no_plan_is_cheaper()
    ensures { (tasks : List AgentTask) (certificate : Certificate) (t : AgentTask) (plan : List TaskStep)
        → IsTeamMember tasks t → Audited tasks certificate → TaskSolves tasks plan
        → certificate.cost ≤ task_cost tasks plan }
{}

/// There is no first failure exactly where a certificate shows that no plan is cheaper.
pub fn failures_are_what_is_wrong()
    ensures { (tasks : List AgentTask) (certificate : Certificate) → AreNumbered tasks
        → (verdict_on tasks certificate ≡ Holds) ↔ Audited tasks certificate }
{}
