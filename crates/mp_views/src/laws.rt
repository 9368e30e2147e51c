//! Laws of texts in the order of their bytes and of views. Each is the contract of a function that does nothing.

ghost use Rattle.std.specs.Prelude.{◌≡◌, ◌∷◌, List, [], true, false};
ghost use Rattle.std.specs.Cmp.Lexicographic.{slice_cmp};
ghost use Rattle.std.specs.List.Sorted.{IsStrictlySortedBy};
ghost use Rattle.std.specs.Ordering.{nat_cmp};
ghost use Rattle.mp_forms.specs.declared.factor.Factor.{Factor};
ghost use Rattle.mp_joint.specs.Fact.{Text, is_listed};
ghost use Rattle.mp_joint.specs.FactorContribution.{privates_of};
ghost use Rattle.mp_views.specs.Opened.{open_view, joined};
ghost use Rattle.mp_views.specs.Sorted.{sorted_once};

/// Texts in the order of their bytes, each once: each is before those behind it, they are the texts of the list, and a
/// list that is so already stays as it is.
pub fn sorted_texts_are_the_same_texts()
    ensures rise { (texts : List Text) → IsStrictlySortedBy (slice_cmp nat_cmp) (sorted_once texts) }
    ensures members { (texts : List Text) (text : Text) → is_listed text (sorted_once texts) ≡ is_listed text texts }
    ensures unchanged { (texts : List Text)
        → IsStrictlySortedBy (slice_cmp nat_cmp) texts → sorted_once texts ≡ texts }
{}

/// What one agent shows before grounding is what it shows together with nobody.
pub fn one_view_joined_is_itself()
    ensures { (factor : Factor) → joined (open_view factor ∷ []) ≡ open_view factor }
{}

/// No private predicate is shown before grounding.
pub fn shown_predicates_are_public()
    ensures changed { (factor : Factor) (predicate : Text) → is_listed predicate (open_view factor).changed ≡ true
        → is_listed predicate (privates_of factor).predicates ≡ false }
    ensures negated { (factor : Factor) (predicate : Text) → is_listed predicate (open_view factor).negated ≡ true
        → is_listed predicate (privates_of factor).predicates ≡ false }
{}
