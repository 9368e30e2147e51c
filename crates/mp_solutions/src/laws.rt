//! The answers of a team are right for its files. Each law is the contract of a function that does nothing.

ghost use Rattle.std.specs.Prelude.{◌≡◌, ◌≤◌, ℕ, true, length, List, Some, All};
ghost use Rattle.mp_forms.specs.declared.factor.Factor.{Factor};
ghost use Rattle.mp_ground_laws.specs.Checked.{IsChecked};
ghost use Rattle.mp_joint.specs.declared.plan.PlanStep.{PlanStep};
ghost use Rattle.mp_messages.specs.declared.history.Entry.{Entry};
ghost use Rattle.mp_messages.specs.declared.history.Event.{Event};
ghost use Rattle.mp_task.specs.Limits.{IsWithinLimits};
ghost use Rattle.mp_world.specs.Answers.{answer_of, outcome_of};
ghost use Rattle.mp_world.specs.Events.{run};
ghost use Rattle.mp_world.specs.RoundRobin.{is_over};
ghost use Rattle.mp_world.specs.Team.{most_expansions, team_with};
ghost use Rattle.mp_world.specs.World.{World};
ghost use Rattle.mp_world.specs.declared.answer.Answer.TheVariants.{Undecided};
ghost use Rattle.mp_split.specs.Team.{AreTasksOf};
ghost use Rattle.mp_split.specs.declared.team.Tasks.{Tasks};
ghost use Rattle.mp_text.specs.Outcome.{outcome_text};
ghost use Rattle.mp_outcome.specs.Names.{names_of};
ghost use Rattle.mp_solutions.specs.PlanText.{answer_text};
ghost use Rattle.mp_solutions.specs.Right.{IsLeftUndecided, IsRight};

use mp_task::Heuristic;

/// Once all agents of a team with the tasks of some files have ended after a legal schedule, the answer is right for
/// the united problem of the files, by a plan whose text is that of the agents' shares, by the names that their actions
/// stand for.
pub fn answers_are_right_for_files<H: Heuristic>()
    ensures { (team : List Factor) (tasks : Tasks) (limit : ℕ) (schedule : List Event) (last : World)
        → All IsChecked team → 1 ≤ length team → AreTasksOf team tasks
        → All IsWithinLimits tasks.tasks → limit ≤ most_expansions
        → run (team_with H.value limit tasks.tasks) schedule ≡ Some last → is_over last ≡ true
        → (plan : List PlanStep)
        × IsRight limit team last (answer_of last) plan
        × ((log : List Entry) → outcome_text (outcome_of last) (names_of team tasks.steps) log
        ≡ answer_text (length team) (answer_of last) plan log) }
{}

/// Where the answer is then that nothing is decided, the search was left undecided: in the world after the cut at agent 1's
/// last snapshot an agent had expanded as many entries as it may, while its least open entry was the least of all that was left
/// to do and no goal entry cost as little; and each plan that solves the united problem of the files costs at least what that
/// entry did.
pub fn searches_are_left_undecided<H: Heuristic>()
    ensures { (team : List Factor) (tasks : Tasks) (limit : ℕ) (schedule : List Event) (last : World)
        → All IsChecked team → 1 ≤ length team → AreTasksOf team tasks
        → All IsWithinLimits tasks.tasks → limit ≤ most_expansions
        → run (team_with H.value limit tasks.tasks) schedule ≡ Some last → is_over last ≡ true
        → answer_of last ≡ Undecided
        → IsLeftUndecided team (team_with H.value limit tasks.tasks) schedule last }
{}
