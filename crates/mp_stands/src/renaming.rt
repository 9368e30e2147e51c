//! What renaming leaves as it is. The law is the contract of a function that does nothing.

ghost use Rattle.std.specs.Prelude.{◌≡◌, ℕ, List, All};
ghost use Rattle.mp_forms.specs.declared.factor.Factor.{Factor};
ghost use Rattle.mp_ground_laws.specs.Checked.{IsChecked};
ghost use Rattle.mp_split.specs.Team.{AreTasksOf};
ghost use Rattle.mp_split.specs.declared.team.Tasks.{Tasks};
ghost use Rattle.mp_stands.specs.Renaming.{Renaming};
ghost use Rattle.mp_stands.specs.Team.{AreRenamedSteps, IsRenamedTeam};

/// Where one agent renames its private names, and the files of both teams pass the checks, both have the same tasks and
/// show the same bytes, whatever order the names have; and the actions stand for the same steps by the other names.
pub fn renaming_changes_no_task()
    ensures tasks { (place : ℕ) (r : Renaming) (team other : List Factor) (t u : Tasks)
        → All IsChecked team → All IsChecked other → IsRenamedTeam place r team other
        → AreTasksOf team t → AreTasksOf other u → u.tasks ≡ t.tasks }
    ensures views { (place : ℕ) (r : Renaming) (team other : List Factor) (t u : Tasks)
        → All IsChecked team → All IsChecked other → IsRenamedTeam place r team other
        → AreTasksOf team t → AreTasksOf other u → u.views ≡ t.views }
    ensures steps { (place : ℕ) (r : Renaming) (team other : List Factor) (t u : Tasks)
        → All IsChecked team → All IsChecked other → IsRenamedTeam place r team other
        → AreTasksOf team t → AreTasksOf other u
        → AreRenamedSteps place r team other t.steps u.steps }
{}
