//! Laws of tasks that agree, and worked teams. Each is the contract of a function that does nothing.

ghost use Rattle.std.specs.Prelude.{◌≡◌, ◌≢◌, ℕ, ◌<◌, ◌++◌, [], ◌∷◌, List, Contains, IsTrue};
ghost use Rattle.mp_task.specs.declared.act.Act.{Act};
ghost use Rattle.mp_task.specs.declared.act.Far.{Far as Part};
ghost use Rattle.mp_task.specs.AgentTask.{AgentTask};
ghost use Rattle.mp_task.specs.Agreement.{Agree};
ghost use Rattle.mp_task.specs.Examples.{two, three, lifted, laid, rung, careful, hasty};
ghost use Rattle.mp_task.specs.Plan.{TaskSolves, task_cost};
ghost use Rattle.mp_task.specs.Public.{is_public, part_of};

/// Tasks don't agree where a task lacks the part of a public action of another agent, has a part twice, has a part
/// that names an agent without such an action, or has the part of a lower agent behind that of a higher one.
pub fn far_lists_are_exact()
    ensures missing { (tasks : List AgentTask) (t u : AgentTask) (act : Act)
        → Contains tasks t → Contains tasks u → u.me ≢ t.me
        → Contains u.acts act → IsTrue (is_public act) → (Contains t.far (part_of u.me act) → ⊥)
        → Agree tasks → ⊥ }
    ensures doubled { (tasks : List AgentTask) (t : AgentTask)
        (before between later : List Part) (p : Part)
        → Contains tasks t → t.far ≡ before ++ p ∷ (between ++ p ∷ later)
        → Agree tasks → ⊥ }
    ensures by_another { (tasks : List AgentTask) (t u : AgentTask) (p : Part)
        → Contains tasks t → Contains tasks u → Contains t.far p → p.by ≡ u.me
        → ((act : Act) → Contains u.acts act → IsTrue (is_public act) → p ≢ part_of u.me act)
        → Agree tasks → ⊥ }
    ensures falling { (tasks : List AgentTask) (t : AgentTask)
        (before between later : List Part) (p q : Part)
        → Contains tasks t → t.far ≡ before ++ p ∷ (between ++ q ∷ later) → q.by < p.by
        → Agree tasks → ⊥ }
{}

/// The worked teams of two and of three agree, and the plan of the team of two solves and costs 4. It doesn't solve
/// where what is not lifted is to be laid.
pub fn worked_teams_agree()
    ensures two { Agree (two (lifted ∷ laid ∷ [])) }
    ensures three { Agree (three (lifted ∷ laid ∷ rung ∷ [])) }
    ensures solves { TaskSolves (two (lifted ∷ laid ∷ [])) careful }
    ensures costs { task_cost (two (lifted ∷ laid ∷ [])) careful ≡ 4 }
    ensures hasty { TaskSolves (two (lifted ∷ laid ∷ [])) hasty → ⊥ }
{}

/// They don't agree where a part is missing, doubled, or names another agent, where the parts don't rise by agent, or
/// where a delete is left in a part that is an add too.
pub fn worked_teams_need_their_parts()
    ensures two_missing { Agree (two (laid ∷ [])) → ⊥ }
    ensures two_doubled { Agree (two (lifted ∷ laid ∷ laid ∷ [])) → ⊥ }
    ensures two_by_another { Agree (two (record lifted { by = 1 } ∷ laid ∷ [])) → ⊥ }
    ensures three_missing { Agree (three (lifted ∷ laid ∷ [])) → ⊥ }
    ensures three_doubled { Agree (three (lifted ∷ laid ∷ lifted ∷ rung ∷ [])) → ⊥ }
    ensures three_by_another { Agree (three (lifted ∷ record laid { by = 3 } ∷ rung ∷ [])) → ⊥ }
    ensures three_falling { Agree (three (rung ∷ lifted ∷ laid ∷ [])) → ⊥ }
    ensures three_added { Agree (three (lifted ∷ laid ∷ record rung { del = 0 ∷ 1 ∷ [] } ∷ [])) → ⊥ }
{}
