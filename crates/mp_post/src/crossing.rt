//! Desks go to other threads.

use crate::desk::Desk;

/// A value of this type may go to another thread.
fn sends<T: Send>() {}

/// Desks cross threads.
pub fn desks_cross_threads() {
    sends::<Desk>();
}
