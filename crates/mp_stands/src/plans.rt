//! Laws of tasks that stand for factors. Each is the contract of a function that does nothing.

ghost use Rattle.std.specs.Prelude.{◌≡◌, List, map};
ghost use Rattle.mp_forms.specs.declared.factor.Factor.{Factor};
ghost use Rattle.mp_joint.specs.declared.plan.PlanStep.{PlanStep};
ghost use Rattle.mp_joint.specs.FactorContribution.{team_of};
ghost use Rattle.mp_joint.specs.Plan.{Solves, cost};
ghost use Rattle.mp_task.specs.AgentTask.{AgentTask};
ghost use Rattle.mp_task.specs.Plan.{TaskStep, TaskSolves, task_cost};
ghost use Rattle.mp_stands.specs.Numbering.{Numbering};
ghost use Rattle.mp_stands.specs.Plans.{AreNamed};
ghost use Rattle.mp_stands.specs.Stands.{Stands};

/// A plan of the tasks is, by the names that its numbers stand for, a plan of the united problem of the factors for
/// which they stand, and costs the same; and each plan of the united problem is one of the tasks in this way. So a list
/// of steps solves exactly where the numbers of its agents do that stand for it, and a list in which a step has no
/// number never solves.
pub fn task_plans_are_plans_by_names()
    ensures by_names { (team : List Factor) (numbering : Numbering) (tasks : List AgentTask)
        → Stands team numbering tasks
        → (numbers : List TaskStep) (plan : List PlanStep) → AreNamed numbering numbers plan
        → TaskSolves tasks numbers
        → Solves (team_of team) plan × (cost (team_of team) plan ≡ task_cost tasks numbers) }
    ensures all_have_names { (team : List Factor) (numbering : Numbering) (tasks : List AgentTask)
        → Stands team numbering tasks
        → (numbers : List TaskStep) → TaskSolves tasks numbers
        → (plan : List PlanStep) × AreNamed numbering numbers plan }
    ensures by_numbers { (team : List Factor) (numbering : Numbering) (tasks : List AgentTask)
        → Stands team numbering tasks
        → (plan : List PlanStep) → Solves (team_of team) plan
        → (numbers : List TaskStep) × AreNamed numbering numbers plan × TaskSolves tasks numbers
        × (cost (team_of team) plan ≡ task_cost tasks numbers) }
    ensures named_solve { (team : List Factor) (numbering : Numbering) (tasks : List AgentTask)
        → Stands team numbering tasks
        → (numbers : List TaskStep) (plan : List PlanStep) → AreNamed numbering numbers plan
        → map (λ s. s.agent) numbers ≡ map (λ step. step.agent) plan
        → Solves (team_of team) plan → TaskSolves tasks numbers }
{}
