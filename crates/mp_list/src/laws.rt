//! Laws on the first item of a list, and on items that repeat earlier ones.

ghost use Rattle.std.specs.Prelude.{◌≡◌, ℕ, Bool, List, [], Some, None, Contains};
ghost use Rattle.mp_list.specs.First.{IsFirst, IsStrictOrder, IsTotal, leftmost as leftmost_of};
ghost use Rattle.mp_list.specs.Repeats.{repeats as repeats_of, RepeatsAt};

/// By a strict and total order, one item of a list alone is its first, `leftmost` finds it, and finds none exactly
/// where the list is empty.
pub fn first_is_one<T>()
    ensures one { (before : T → T → Bool) (items : List T) (a b : T)
        → IsTotal before → IsFirst before items a → IsFirst before items b → a ≡ b }
    ensures found { (before : T → T → Bool) (items : List T) (first : T)
        → IsStrictOrder before → leftmost_of before None items ≡ Some first → IsFirst before items first }
    ensures finds { (before : T → T → Bool) (items : List T) (first : T)
        → IsStrictOrder before → IsTotal before → IsFirst before items first → leftmost_of before None items ≡ Some first }
    ensures empty { (before : T → T → Bool) (items : List T) → leftmost_of before None items ≡ None → items ≡ [] }
    ensures none { (before : T → T → Bool) (first : T) → IsFirst before [] first → ⊥ }
{}

/// An item repeats an earlier one exactly where it stands at a place such that its key is among the keys of the items
/// before that place.
pub fn repeat_has_earlier<T, K>()
    ensures place { (same : K → K → Bool) (key_of : T → K) (items : List T) (item : T)
        → Contains (repeats_of same key_of items) item → (place : ℕ) × RepeatsAt same key_of [] items place item }
    ensures repeats { (same : K → K → Bool) (key_of : T → K) (items : List T) (item : T) (place : ℕ)
        → RepeatsAt same key_of [] items place item → Contains (repeats_of same key_of items) item }
{}
