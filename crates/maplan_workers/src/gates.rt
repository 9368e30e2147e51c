//! How agents wait at gates.

use crossbeam_utils::Backoff;
use std::sync::atomic::{AtomicU64, Ordering};

/// Waits until so many have come: false where that took too many turns of `Backoff`. So no agent waits for good.
pub(crate) fn have_come(come: &AtomicU64, wanted: u64, turns: u64) -> bool {
    let backoff = Backoff::new();
    for _ in 0..turns {
        if come.load(Ordering::SeqCst) >= wanted {
            return true;
        }
        backoff.snooze();
    }
    false
}
