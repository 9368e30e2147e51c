//! Laws of walks and shares.

ghost use Rattle.std.specs.Prelude.{◌≡◌, ℕ, ◌+◌, ◌<◌, ◌≤◌, Bool, true, List, ◌++◌, All, AllPairs, length, map};
ghost use Rattle.std.specs.List.{range_with_len};
ghost use Rattle.mp_store.specs.Laws.{IsSound};
ghost use Rattle.mp_store.specs.Record.{Record};
ghost use Rattle.mp_trail.specs.declared.steps.Noted.{Noted};
ghost use Rattle.mp_trail.specs.Share.{IsRising, fits, share};
ghost use Rattle.mp_trail.specs.Walk.{walk, walk_from, origin_of, back_at};

/// A walk follows origins: in a sound record it goes on at the entry that an own action led from, until there is none.
/// It notes at most as many actions as there are entries before its first one.
pub fn walk_follows_origins<K>()
    ensures follows { (same : K → K → Bool) (r : Record K) (entry back : ℕ) → IsSound same r
        → entry < length r.entries → walk r entry back ≡ walk_from (walk r) (origin_of r entry) back }
    ensures short { (same : K → K → Bool) (r : Record K) (entry back : ℕ) → IsSound same r
        → entry < length r.entries → length (walk r entry back).noted ≤ entry }
{}

/// The actions that a walk notes have one action more after them each, from the number that it began with, and so it
/// ends with that number and one for each of them. After earlier ones with fewer actions after them their order by that
/// number goes on, and the walk has reached a number above all of them.
pub fn walk_counts<K>()
    ensures backs { (r : Record K) (entry back : ℕ) → map (λ n. n.back) (walk r entry back).noted
        ≡ range_with_len back (length (walk r entry back).noted) }
    ensures end { (r : Record K) (entry back : ℕ)
        → back_at (walk r entry back).end ≡ back + length (walk r entry back).noted }
    ensures rising { (r : Record K) (entry back : ℕ) (noted : List Noted) → IsRising noted → fits back noted ≡ true
        → IsRising (noted ++ (walk r entry back).noted) }
    ensures fits { (r : Record K) (entry back : ℕ) (noted : List Noted) → fits back noted ≡ true
        → fits (back_at (walk r entry back).end) (noted ++ (walk r entry back).noted) ≡ true }
{}

/// The times of a share rise strictly, and each is from 1 to the plan's length.
pub fn times_of_share()
    ensures rising { (noted : List Noted) (plan : ℕ) → IsRising noted → fits plan noted ≡ true
        → AllPairs (λ a later. a.time < later.time) (share plan noted) }
    ensures within { (noted : List Noted) (plan : ℕ) → fits plan noted ≡ true
        → All (λ t. (1 ≤ t.time) × (t.time ≤ plan)) (share plan noted) }
{}
