//! Laws of costs that may be out of reach. Each is the contract of a function that does nothing.

ghost use Rattle.std.specs.Prelude.{◌≡◌, ℕ, Option};
ghost use Rattle.mp_estimates.specs.Estimates.{AtMost, lesser, greater};

/// The order of costs: each is at most itself, what is at most each other is equal, and what is at most a cost is at
/// most all that this one is at most.
pub fn costs_are_ordered()
    ensures itself { (a : Option ℕ) → AtMost a a }
    ensures equal { (a b : Option ℕ) → AtMost a b → AtMost b a → a ≡ b }
    ensures onward { (a b c : Option ℕ) → AtMost a b → AtMost b c → AtMost a c }
{}

/// The lesser of two costs is at most both, and what is at most both is at most it; the greater one is the other way
/// round.
pub fn lesser_and_greater_are_bounds()
    ensures lesser_left { (a b : Option ℕ) → AtMost (lesser a b) a }
    ensures lesser_right { (a b : Option ℕ) → AtMost (lesser a b) b }
    ensures lesser_both { (c a b : Option ℕ) → AtMost c a → AtMost c b → AtMost c (lesser a b) }
    ensures greater_left { (a b : Option ℕ) → AtMost a (greater a b) }
    ensures greater_right { (a b : Option ℕ) → AtMost b (greater a b) }
    ensures greater_both { (c a b : Option ℕ) → AtMost a c → AtMost b c → AtMost (greater a b) c }
{}
