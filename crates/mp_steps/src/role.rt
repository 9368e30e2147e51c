//! What the facts of actions are to them.

/// What a fact is to an action.
#[derive(Clone, Copy)]
pub enum Role {
    Needed,
    Added,
    Deleted,
}
