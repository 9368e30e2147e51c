//! Which calls of a source or a sink in memory fail.

ghost use Rattle.std.specs.Prelude.{◌≡◌, ◌≤◌, [], vec_items};
ghost use Rattle.mp_outside.specs.Calls.{after_call, next_fails};

/// Calls, counted from 1, and the numbers of those that fail. The count stops at `u64::MAX`, and no call
/// fails after that.
#[derive(Drop)]
pub(crate) struct Calls {
    pub(crate) made: u64,
    pub(crate) failing: Vec<u64>,
}

impl Calls {
    /// No call yet.
    pub(crate) fn new(failing: Vec<u64>) -> Calls
        ensures made { result.made ≡ 0 }
        ensures failing { result.failing ≡ failing }
    {
        Calls { made: 0, failing }
    }

    /// Counts one more call: whether it fails.
    pub(crate) fn count(&mut self) -> bool
        ensures fails { result ≡ next_fails self.old.made self.old.failing.items }
        ensures made { self.new.made ≡ after_call self.old.made }
        ensures failing { self.new.failing ≡ self.old.failing }
    {
        if self.made == u64::MAX {
            return false;
        }
        self.made += 1;
        self.failing.as_slice().contains(&self.made)
    }
}
