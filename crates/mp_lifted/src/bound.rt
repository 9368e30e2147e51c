//! What stands for the parameters of an action, borrowed.

/// Objects for the parameters of an action, and what the action costs with them.
#[derive(Clone, Copy)]
pub struct BoundAction<'a> {
    /// The place of the action in its factor, from 0.
    pub action: usize,
    /// The object for each parameter, by its number.
    pub objects: &'a [u32],
    pub cost: u64,
}
