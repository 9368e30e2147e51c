//! Laws that join what an agent grounds to the united problem. Each is the contract of a function that does nothing.

ghost use Rattle.std.specs.Prelude.{◌≡◌, ◌≢◌, ◌↔◌, ℕ, List, map, filter, length, None, Some};
ghost use Rattle.std.specs.Prelude.{All, AllPairs, Contains};
ghost use Rattle.mp_forms.specs.declared.factor.Factor.{Factor};
ghost use Rattle.mp_task.specs.AgentTask.{AgentTask};
ghost use Rattle.mp_task.specs.Agreement.{Agree};
ghost use Rattle.mp_joint.specs.declared.fact.SignedFact.{SignedFact};
ghost use Rattle.mp_joint.specs.Fact.{Text, named};
ghost use Rattle.mp_joint.specs.FactorContribution.{privates_of};
ghost use Rattle.mp_joint.specs.Grounded.{needed as needed_in, added as added_in, deleted as deleted_in};
ghost use Rattle.mp_joint.specs.Instance.{Instance};
ghost use Rattle.mp_stands.specs.Numbering.{Numbering, AreNumbersFor, privates_of as privates_in};
ghost use Rattle.mp_stands.specs.Stands.{AreCounted, AreActionsOf, AreTrueAtStart, Stands, is_known_to};
ghost use Rattle.mp_stands.specs.Touched.{factor_of, setting_of, needed, added, deleted, goals, IsGrounded, IsCounted};
ghost use Rattle.mp_ground_laws.specs.Checked.{IsChecked};
ghost use Rattle.mp_ground_laws.specs.Grounding.{GroundedStep, grounded};
ghost use Rattle.mp_grounder.specs.declared.grounded.Ground.{Ground};
ghost use Rattle.mp_split.specs.declared.team.Tasks.{Tasks};
ghost use Rattle.mp_split.specs.TaskOf.{task_of};
ghost use Rattle.mp_split.specs.Team.{AreGrounded, AreTasksOf, shown_by};
ghost use Rattle.mp_stands.specs.Declared.{AreDeclared};
ghost use Rattle.mp_stands.specs.Knowing.{known_setting, IsCountedByOne, IsGoalOfOne};
ghost use Rattle.mp_stands.specs.Numbered.{IsNumberingOf};

/// What an agent knows where it grounds its factor, by its own files and by what all agents show, is what is so in the
/// team: which predicates are static, whose facts have complements, and which facts of its names are true at the start.
/// So what an instance needs, adds and deletes is the same for the agent and for the team. The steps that the agent
/// grounds are the team's grounded steps of that agent, each once, with their instances. What the agents count, and
/// what their goals name, is together what the team counts, and what its goals name.
pub fn agents_know_what_is_so()
    ensures static_predicates { (team : List Factor) (me : ℕ) (factor : Factor) (predicate : Text)
        → (known_setting team me factor).is_static predicate ≡ (setting_of team factor).is_static predicate }
    ensures negated_predicates { (team : List Factor) (me : ℕ) (factor : Factor) (predicate : Text)
        → (known_setting team me factor).is_negated predicate ≡ (setting_of team factor).is_negated predicate }
    ensures start { (team : List Factor) (me : ℕ) (factor : Factor) (predicate : Text) (args : List Text)
        → All IsChecked team → factor_of team me ≡ Some factor → AreDeclared factor predicate args
        → (known_setting team me factor).start (named me (privates_of factor) predicate args)
        ≡ (setting_of team factor).start (named me (privates_of factor) predicate args) }
    ensures needed { (team : List Factor) (me : ℕ) (factor : Factor) (i : Instance)
        → needed_in (known_setting team me factor) i ≡ needed team factor i }
    ensures added { (team : List Factor) (me : ℕ) (factor : Factor) (i : Instance)
        → added_in (known_setting team me factor) i ≡ added team factor i }
    ensures deleted { (team : List Factor) (me : ℕ) (factor : Factor) (i : Instance)
        → deleted_in (known_setting team me factor) i ≡ deleted team factor i }
    ensures steps { (team : List Factor) (me : ℕ) (factor : Factor) (g : GroundedStep)
        → All IsChecked team → factor_of team me ≡ Some factor
        → Contains (grounded me factor (known_setting team me factor)) g
        ↔ ((g.step.agent ≡ me) × IsGrounded team g.step factor g.instance) }
    ensures once { (team : List Factor) (me : ℕ) (factor : Factor)
        → All IsChecked team → factor_of team me ≡ Some factor
        → AllPairs (λ a b. a.step ≢ b.step) (grounded me factor (known_setting team me factor)) }
    ensures counted { (team : List Factor) (x : SignedFact) → All IsChecked team
        → IsCounted team x ↔ IsCountedByOne team x }
    ensures goals { (team : List Factor) (x : SignedFact) → Contains (goals team) x ↔ IsGoalOfOne team x }
{}

/// The grounded factors of a team have a numbering: the public facts and complements with the texts of the team's
/// table, and for each agent the private facts of its grounded factor and the steps that its actions stand for.
pub fn grounded_teams_have_numberings()
    ensures { (team : List Factor) (grounds : List Ground) → All IsChecked team → AreGrounded team grounds
        → (numbering : Numbering) × IsNumberingOf team grounds numbering }
{}

/// By each numbering of a team the public numbers are those of the counted public facts and complements, each once, and
/// the private numbers of an agent those of its own counted ones, each once. Of each task the own actions stand for
/// the agent's grounded steps, each once, with the numbers of what they need, add and delete, and with their costs;
/// what is true at the start is so in the team, and the goals are the team's, as far as the agent knows them.
pub fn numbers_stand_for_facts_and_steps()
    ensures public_facts { (team : List Factor) (grounds : List Ground) (numbering : Numbering)
        → All IsChecked team → AreGrounded team grounds → IsNumberingOf team grounds numbering
        → AreCounted team None numbering.publics }
    ensures publics { (team : List Factor) (grounds : List Ground) (numbering : Numbering) (t : AgentTask)
        → All IsChecked team → AreGrounded team grounds → IsNumberingOf team grounds numbering
        → Contains (map (task_of (shown_by team grounds)) grounds) t
        → t.publics ≡ length numbering.publics }
    ensures privates { (team : List Factor) (grounds : List Ground) (numbering : Numbering) (t : AgentTask)
        → All IsChecked team → AreGrounded team grounds → IsNumberingOf team grounds numbering
        → Contains (map (task_of (shown_by team grounds)) grounds) t
        → t.privates ≡ length (privates_in numbering t.me) }
    ensures private_facts { (team : List Factor) (grounds : List Ground) (numbering : Numbering) (t : AgentTask)
        → All IsChecked team → AreGrounded team grounds → IsNumberingOf team grounds numbering
        → Contains (map (task_of (shown_by team grounds)) grounds) t
        → AreCounted team (Some t.me) (privates_in numbering t.me) }
    ensures acts { (team : List Factor) (grounds : List Ground) (numbering : Numbering) (t : AgentTask)
        → All IsChecked team → AreGrounded team grounds → IsNumberingOf team grounds numbering
        → Contains (map (task_of (shown_by team grounds)) grounds) t
        → AreActionsOf team numbering t.me t.acts }
    ensures private_start { (team : List Factor) (grounds : List Ground) (numbering : Numbering) (t : AgentTask)
        → All IsChecked team → AreGrounded team grounds → IsNumberingOf team grounds numbering
        → Contains (map (task_of (shown_by team grounds)) grounds) t
        → AreTrueAtStart team (privates_in numbering t.me) t.start_priv }
    ensures public_start { (team : List Factor) (grounds : List Ground) (numbering : Numbering) (t : AgentTask)
        → All IsChecked team → AreGrounded team grounds → IsNumberingOf team grounds numbering
        → Contains (map (task_of (shown_by team grounds)) grounds) t
        → AreTrueAtStart team numbering.publics t.start_pub }
    ensures goals { (team : List Factor) (grounds : List Ground) (numbering : Numbering) (t : AgentTask)
        → All IsChecked team → AreGrounded team grounds → IsNumberingOf team grounds numbering
        → Contains (map (task_of (shown_by team grounds)) grounds) t
        → AreNumbersFor numbering t.me (filter (is_known_to t.me) (goals team)) t.goal_pub t.goal_priv }
{}

/// The tasks of a team's grounded factors agree: they are numbered from 1 on, say the same of public facts, of the
/// start and of the goals, and each has the public parts of the public actions of the others, none twice, agent by
/// agent.
pub fn tasks_of_grounded_teams_agree()
    ensures { (team : List Factor) (grounds : List Ground) → All IsChecked team → AreGrounded team grounds
        → Agree (map (task_of (shown_by team grounds)) grounds) }
{}

/// The tasks that a team's factors lead to stand for the factors, by a numbering of their grounded factors.
pub fn tasks_stand_for_files()
    ensures { (team : List Factor) (t : Tasks) → All IsChecked team → (h : AreTasksOf team t)
        → (numbering : Numbering) × IsNumberingOf team h.grounds numbering × Stands team numbering t.tasks }
{}
