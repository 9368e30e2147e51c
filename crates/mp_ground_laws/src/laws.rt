//! Laws that join grounding by numbers to grounding by names. Each is the contract of a function that does nothing.

ghost use Rattle.std.specs.Prelude.{◌≡◌, ◌++◌, List, map, filter, All, Bool, Contains, is_none, ℕ};
ghost use Rattle.mp_forms.specs.declared.schema_values.Schema.{Schema};
ghost use Rattle.mp_joint.specs.declared.fact.SignedFact.{SignedFact};
ghost use Rattle.mp_joint.specs.Fact.{plain, complement};
ghost use Rattle.mp_joint.specs.FactorContribution.{factor_contribution, instance_with};
ghost use Rattle.mp_joint.specs.Grounded.{needed, added, deleted};
ghost use Rattle.mp_joint.specs.Instance.{holds};
ghost use Rattle.mp_lifting.specs.Views.{setting_of};
ghost use Rattle.mp_lifted.specs.Start.{is_true_at_start};
ghost use Rattle.mp_ground_facts.specs.declared.fact.GroundFact.{GroundFact};
ghost use Rattle.mp_ground_facts.specs.Facts.{atom_of, fact_cmp, is_initial};
ghost use Rattle.mp_ground_facts.specs.Touched.{needed as needed_in_numbers, added as added_in_numbers, deleted as deleted_in_numbers, goal_facts, counted};
ghost use Rattle.mp_forms.specs.declared.factor.Factor.{Factor};
ghost use Rattle.mp_lifted.specs.declared.lifted.GroundAtom.{GroundAtom};
ghost use Rattle.mp_lifting.specs.declared.view.OpenView.{OpenView};
ghost use Rattle.mp_lifting.specs.Factors.{lifted_factor};
ghost use Rattle.mp_instances.specs.Costs.{HasSmallCosts};
ghost use Rattle.mp_instances.specs.Counts.{tries as tries_in_numbers};
ghost use Rattle.mp_instances.specs.Instances.{instances};
ghost use Rattle.mp_ground_laws.specs.Checked.{IsChecked};
ghost use Rattle.mp_ground_laws.specs.Counted.{counted_facts, signed_cmp};
ghost use Rattle.mp_ground_laws.specs.Grounding.{grounded, grounded_instance};
ghost use Rattle.mp_ground_laws.specs.Listing.{IsListing};
ghost use Rattle.mp_ground_laws.specs.Tried.{tries};
ghost use Rattle.mp_ground_laws.specs.Named.{named_objects};
ghost use Rattle.mp_ground_laws.specs.Numbered.{named_instance, AreNumbered, named_fact, signed_fact, numbered_action, IsBinding, IsInRange, IsInstance, IsOfFactor};

use mp_typing::CheckedFactor;

/// A law of every checked factor: it has no fault, keeps the limits, and its names are names.
pub fn checked_factor_is_checked(factor: &CheckedFactor)
    ensures { IsChecked factor.now }
{
    let whole = factor.factor();
    whole.domain.comes_from_a_file();
    whole.problem.comes_from_a_file();
}

/// The same for all factors of a team.
pub fn checked_factors_are_checked(factors: &[CheckedFactor])
    ensures { All IsChecked factors.now }
{
    for factor in factors {
        checked_factor_is_checked(factor);
    }
}

/// In numbers a checked factor keeps the limits of costs.
pub fn lifted_costs_are_small()
    ensures { (factor : Factor) (view : OpenView) → IsChecked factor
        → HasSmallCosts (lifted_factor factor view) }
{}

/// Atoms with other numbers stand for other facts, so that no two facts are taken for one.
pub fn numbers_name_different_facts()
    ensures { (agent : ℕ) (factor : Factor) (a b : GroundAtom) → IsChecked factor
        → IsInRange factor a → IsInRange factor b
        → named_fact agent factor a ≡ named_fact agent factor b → a ≡ b }
{}

/// What an action needs, adds and deletes in numbers stands for what its instance by names does, fact by fact.
pub fn touched_facts_stand_for_named_facts()
    ensures needed { (agent : ℕ) (factor : Factor) (view : OpenView) (schema : Schema) (objects : List ℕ) (cost : ℕ)
        → IsChecked factor → Contains factor.domain.schemas schema → IsBinding factor schema.params objects
        → map (signed_fact agent factor)
        (needed_in_numbers (lifted_factor factor view) (numbered_action factor view schema) objects)
        ≡ needed (setting_of agent factor view)
        (instance_with agent factor schema (named_objects factor objects) cost) }
    ensures added { (agent : ℕ) (factor : Factor) (view : OpenView) (schema : Schema) (objects : List ℕ) (cost : ℕ)
        → IsChecked factor → Contains factor.domain.schemas schema → IsBinding factor schema.params objects
        → map (signed_fact agent factor)
        (added_in_numbers (lifted_factor factor view) (numbered_action factor view schema) objects)
        ≡ added (setting_of agent factor view)
        (instance_with agent factor schema (named_objects factor objects) cost) }
    ensures deleted { (agent : ℕ) (factor : Factor) (view : OpenView) (schema : Schema) (objects : List ℕ) (cost : ℕ)
        → IsChecked factor → Contains factor.domain.schemas schema → IsBinding factor schema.params objects
        → map (signed_fact agent factor)
        (deleted_in_numbers (lifted_factor factor view) (numbered_action factor view schema) objects)
        ≡ deleted (setting_of agent factor view)
        (instance_with agent factor schema (named_objects factor objects) cost) }
{}

/// The goals in numbers stand for the goals by names: first the facts that are asked for, then the complements of
/// those that are negated.
pub fn goals_stand_for_named_goals()
    ensures { (agent : ℕ) (factor : Factor) (view : OpenView) → IsChecked factor
        → map (signed_fact agent factor) (goal_facts (lifted_factor factor view))
        ≡ map plain (factor_contribution agent factor).goal
        ++ map complement (factor_contribution agent factor).never }
{}

/// A fact is true at the start in numbers exactly where it is by names, and so is a complement.
pub fn start_stands_for_named_start()
    ensures atoms { (agent : ℕ) (factor : Factor) (view : OpenView) (a : GroundAtom)
        → IsChecked factor → IsInRange factor a
        → is_true_at_start (lifted_factor factor view) a
        ≡ (setting_of agent factor view).start (named_fact agent factor a) }
    ensures facts { (agent : ℕ) (factor : Factor) (view : OpenView) (f : GroundFact)
        → IsChecked factor → IsInRange factor (atom_of f)
        → is_initial (lifted_factor factor view) f
        ≡ holds (setting_of agent factor view).start (signed_fact agent factor f) }
{}

/// The instances of a factor in numbers are, one by one and in their order, its grounded actions by names: the same
/// steps at the same costs, which need, add and delete the same facts.
pub fn instances_stand_for_grounded_steps()
    ensures { (agent : ℕ) (factor : Factor) (view : OpenView) → IsChecked factor
        → map (named_instance agent factor (lifted_factor factor view)) (instances (lifted_factor factor view))
        ≡ map (grounded_instance (setting_of agent factor view))
        (grounded agent factor (setting_of agent factor view)) }
{}

/// The instances in numbers are actions of the file at objects, one for each parameter. What they touch and goals name
/// are facts in range, marked public where nothing of them is private.
pub fn numbers_are_of_the_factor()
    ensures instances { (factor : Factor) (view : OpenView)
        → All (IsInstance factor) (instances (lifted_factor factor view)) }
    ensures facts { (factor : Factor) (view : OpenView) → IsChecked factor
        → All (IsOfFactor factor view)
        (counted (lifted_factor factor view) (instances (lifted_factor factor view))) }
{}

/// A fact in numbers is marked public exactly where its fact by names belongs to nobody.
pub fn public_facts_belong_to_nobody()
    ensures { (agent : ℕ) (factor : Factor) (view : OpenView) (f : GroundFact) → IsOfFactor factor view f
        → f.is_public ≡ is_none (signed_fact agent factor f).fact.owner }
{}

/// The counted facts in numbers stand, one by one, for those by names. Different ones stand for different ones, so that
/// their count carries over, and in the same order.
pub fn counted_facts_stand_for_named_facts()
    ensures counted { (agent : ℕ) (factor : Factor) (view : OpenView) → IsChecked factor
        → map (signed_fact agent factor)
        (counted (lifted_factor factor view) (instances (lifted_factor factor view)))
        ≡ counted_facts agent factor (setting_of agent factor view) }
    ensures different { (agent : ℕ) (factor : Factor) (view : OpenView) (f g : GroundFact) → IsChecked factor
        → IsOfFactor factor view f → IsOfFactor factor view g
        → signed_fact agent factor f ≡ signed_fact agent factor g → f ≡ g }
    ensures order { (agent : ℕ) (factor : Factor) (view : OpenView) (f g : GroundFact) → IsChecked factor
        → IsOfFactor factor view f → IsOfFactor factor view g
        → signed_cmp factor (signed_fact agent factor f) (signed_fact agent factor g) ≡ fact_cmp f g }
{}

/// Facts in numbers that rise and are the counted ones list, by their names, the counted facts by names, each once: so
/// do those of them that pass a test, as the private ones.
pub fn numbered_facts_list_named_facts()
    ensures { (agent : ℕ) (factor : Factor) (view : OpenView) (facts : List GroundFact) (test : SignedFact → Bool)
        → IsChecked factor → AreNumbered factor view facts
        → IsListing (signed_cmp factor) test (counted_facts agent factor (setting_of agent factor view))
        (filter test (map (signed_fact agent factor) facts)) }
{}

/// As many bindings are tried in numbers as by names.
pub fn tries_are_those_by_names()
    ensures { (agent : ℕ) (factor : Factor) (view : OpenView) → IsChecked factor
        → tries_in_numbers (lifted_factor factor view) ≡ tries agent factor (setting_of agent factor view) }
{}
