//! Laws of names and their numbers. Each is the contract of a function that does nothing.

ghost use Rattle.std.specs.Prelude.{◌≡◌, ◌<◌, ℕ, List, true, length};
ghost use Rattle.mp_sexp.specs.Numbers.{is_named, name_at, number_in};

/// The number of a name that is there is below the count of the names, and is that of a place at which it stands.
pub fn numbers_are_places()
    ensures place { (names : List (List ℕ)) (name : List ℕ)
        → is_named names name ≡ true → name_at names (number_in names name) ≡ name }
    ensures below { (names : List (List ℕ)) (name : List ℕ)
        → is_named names name ≡ true → number_in names name < length names }
{}
