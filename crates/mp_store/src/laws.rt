//! Laws of keys and of the records that stores keep.

ghost use Rattle.std.specs.Prelude.{◌≡◌, ◌↔◌, ◌<◌, ◌^◌, ℕ, Bool, true, false, nat_le, slice_get, All, IsTrue, None, Some, length};
ghost use Rattle.std.specs.Cmp.{IsEquivalence};
ghost use Rattle.mp_store.specs.declared.entry.Entry.{Entry};
ghost use Rattle.mp_store.specs.declared.entry.Mark.TheVariants.{Open, Replaced};
ghost use Rattle.mp_store.specs.declared.key.Key.{Key};
ghost use Rattle.mp_store.specs.Keys.{same_key};
ghost use Rattle.mp_store.specs.Laws.{HasFallingCosts, IsEarlier, IsLastEntry, IsSound};
ghost use Rattle.mp_store.specs.Minima.{best, closed, popped};
ghost use Rattle.mp_store.specs.Record.{Record, empty, f, is_known, offered};
ghost use Rattle.mp_store.specs.Sent.{mark_sent, was_sent};

/// Keys are equal exactly where they are one value.
pub fn equal_keys_are_one()
    ensures { (a b : Key) → IsTrue (same_key a b) ↔ (a ≡ b) }
{}

/// The empty record is sound, and a sound one stays so when a state is offered, an entry closed or a
/// state sent.
pub fn records_stay_sound<K>()
    ensures empty { (same : K → K → Bool) → IsSound same empty }
    ensures offered { (same : K → K → Bool) (new : Entry K) (r : Record K) → IsSound same r
        → new.mark ≡ Open → f new < 2 ^ 60 → IsEarlier (length r.entries) new.origin
        → IsSound same (offered same new r).1 }
    ensures closed { (same : K → K → Bool) (n : ℕ) (r : Record K) → IsSound same r
        → IsSound same (closed n r) }
    ensures popped { (same : K → K → Bool) (r : Record K) → IsSound same r
        → IsSound same (popped r).1 }
    ensures sent { (same : K → K → Bool) (n : ℕ) (r : Record K) → IsSound same r
        → IsSound same (mark_sent same n r).1 }
{}

/// Where costs fall, the best entry of a key is its last one.
pub fn best_entry_is_the_last<K>()
    ensures last { (same : K → K → Bool) (key : K) (r : Record K) (n : ℕ) (e : Entry K)
        → IsEquivalence same → HasFallingCosts same r → IsLastEntry same key r n e
        → best same key r ≡ Some n }
    ensures best { (same : K → K → Bool) (key : K) (r : Record K) (n : ℕ) → IsEquivalence same
        → HasFallingCosts same r → best same key r ≡ Some n
        → (e : Entry K) × IsLastEntry same key r n e }
    ensures none { (same : K → K → Bool) (key : K) (r : Record K) → best same key r ≡ None
        → All (λ e. same e.key key ≡ false) r.entries }
{}

/// Some entry of a key costs g or less exactly where its last one does, and the last one is open or
/// expanded.
pub fn last_entry_tells_of_its_key<K>()
    ensures cost { (same : K → K → Bool) (key : K) (r : Record K) (n : ℕ) (e : Entry K)
        → IsEquivalence same → HasFallingCosts same r → IsLastEntry same key r n e
        → (g : ℕ) → is_known same key g r.entries ≡ nat_le e.g g }
    ensures lives { (same : K → K → Bool) (key : K) (r : Record K) (n : ℕ) (e : Entry K)
        → IsEquivalence same → IsSound same r → IsLastEntry same key r n e → e.mark ≡ Replaced → ⊥ }
{}

/// After an offer some entry of the key is as cheap, and what was known at a cost stays known at it.
pub fn known_states_stay_known<K>()
    ensures new { (same : K → K → Bool) (new : Entry K) (r : Record K)
        → same new.key new.key ≡ true
        → is_known same new.key new.g (offered same new r).1.entries ≡ true }
    ensures offered { (same : K → K → Bool) (new : Entry K) (r : Record K) (key : K) (g : ℕ)
        → is_known same key g r.entries ≡ true
        → is_known same key g (offered same new r).1.entries ≡ true }
    ensures popped { (same : K → K → Bool) (r : Record K) (key : K) (g : ℕ)
        → is_known same key g (popped r).1.entries ≡ is_known same key g r.entries }
    ensures sent { (same : K → K → Bool) (n : ℕ) (r : Record K) (key : K) (g : ℕ)
        → is_known same key g (mark_sent same n r).1.entries ≡ is_known same key g r.entries }
{}

/// After an entry is sent its state counts as sent at its cost, and what was sent at a cost stays sent
/// at it.
pub fn sent_states_stay_sent<K>()
    ensures new { (same : K → K → Bool) (n : ℕ) (e : Entry K) (r : Record K)
        → slice_get r.entries n ≡ Some e → same e.key e.key ≡ true → was_sent same e.key e.g (mark_sent same n r).1 ≡ true }
    ensures sent { (same : K → K → Bool) (n : ℕ) (r : Record K) (key : K) (g : ℕ)
        → was_sent same key g r ≡ true → was_sent same key g (mark_sent same n r).1 ≡ true }
    ensures offered { (same : K → K → Bool) (new : Entry K) (r : Record K) (key : K) (g : ℕ)
        → IsSound same r → was_sent same key g (offered same new r).1 ≡ was_sent same key g r }
    ensures popped { (same : K → K → Bool) (r : Record K) (key : K) (g : ℕ)
        → was_sent same key g (popped r).1 ≡ was_sent same key g r }
{}
