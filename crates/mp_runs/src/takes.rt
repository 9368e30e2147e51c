//! What takes events one after another.

ghost use Rattle.std.specs.Prelude.{◌≡◌, ◌+◌, ◌≤◌, ◌<◌, Option, Some, None, IsTrue, length, take, if◌then◌else◌};
ghost use Rattle.mp_runs.specs.Run.{run};

/// A state that an event may change. An event is taken, or refused with the state as it was.
pub trait Takes<E> {
    /// The state after an event: none where it is refused.
    ghost step: { Self → E → Option Self };

    /// Takes an event, and answers whether it did.
    fn take(&mut self, event: &E) -> bool
        ensures taken { step self.old event.now ≡ (if result then Some self.new else None) }
        ensures refused { (IsTrue result → ⊥) → self.new ≡ self.old };
}

/// Takes events one after another up to the first that is refused, and answers how many it took.
pub fn take_front<S: Takes<E>, E>(state: &mut S, events: &[E]) -> usize
    ensures reached { run S.step state.old (take result events.now) ≡ Some state.new }
    ensures front { result ≤ length events.now }
    ensures stopped { result < length events.now
        → run S.step state.old (take (result + 1) events.now) ≡ None }
{
    let mut taken = 0;
    for event in events {
        if !state.take(event) {
            return taken;
        }
        taken += 1;
    }
    taken
}
