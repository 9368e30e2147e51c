//! Laws of tokens. Each holds for every initial set and every list of uses.

ghost use Rattle.std.specs.Prelude.{◌≡◌, ◌<◌, ◌∷◌, ◌++◌, ◌↔◌, [], List, Contains, length};
ghost use Rattle.mp_sets.specs.Numbers.{Numbers};
ghost use Rattle.mp_tokens.specs.Order.{with_set, order_of_use, token, AreDifferent};

/// Equal sets have equal tokens, and different ones have different tokens.
pub fn tokens_are_one_to_one()
    ensures { (start : Numbers) (uses : List Numbers) (s t : Numbers) → Contains (start ∷ uses) s
        → Contains (start ∷ uses) t → (token start uses s ≡ token start uses t) ↔ (s ≡ t) }
{}

/// The initial set has token 0. The token of another set is the number of different sets among the initial
/// one and those used before its first use.
pub fn tokens_count_first_uses()
    ensures initial { (start : Numbers) (uses : List Numbers) → token start uses start ≡ 0 }
    ensures other { (start : Numbers) (before after : List Numbers) (s : Numbers)
        → (Contains (start ∷ before) s → ⊥)
        → token start (before ++ s ∷ after) s ≡ length (order_of_use start before) }
{}

/// A set that has a token keeps it, whatever is used later.
pub fn tokens_stay()
    ensures { (start : Numbers) (uses more : List Numbers) (s : Numbers) → Contains (start ∷ uses) s
        → token start (uses ++ more) s ≡ token start uses s }
{}

/// One more use adds its set at the end of the order, unless it is there.
pub fn orders_grow_by_uses()
    ensures { (start : Numbers) (uses : List Numbers) (s : Numbers)
        → order_of_use start (uses ++ s ∷ []) ≡ with_set (order_of_use start uses) s }
{}

/// The order of first use has no set twice, and it has the initial set, the used sets and no other.
pub fn orders_have_each_used_set_once()
    ensures different { (start : Numbers) (uses : List Numbers) → AreDifferent (order_of_use start uses) }
    ensures sets { (start : Numbers) (uses : List Numbers) (s : Numbers)
        → Contains (order_of_use start uses) s ↔ Contains (start ∷ uses) s }
{}
