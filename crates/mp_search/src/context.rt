//! What the steps of a search work on.

use crate::states::States;
use mp_applicable::{ActionIndex, FarIndex};
use mp_task::{Heuristic, Task};
use std::alloc::Global;

/// What a search looks at: where memory comes from, its task, and what is worked out once of that.
#[derive(Drop)]
pub(crate) struct Context {
    pub(crate) alloc: Global,
    pub(crate) task: Task,
    /// Finds the own actions that may be applied.
    pub(crate) actions: ActionIndex,
    /// Tells which other agents' public actions may be applicable.
    pub(crate) far: FarIndex,
}

/// What a search changes: a heuristic that was made of its task, and the states that it keeps.
#[derive(Drop)]
pub(crate) struct Progress<H: Heuristic> {
    pub(crate) heuristic: H,
    pub(crate) states: States,
}
