//! Facts and values at the start.

use crate::atom_values::{Atom, AtomList};
use mp_list::List;
use mp_sexp::Place;

/// The value of a function at the start.
#[derive(Drop)]
pub struct Value {
    /// The function and the names that it is applied to.
    pub of: Atom,
    /// At most 1,000,000.
    pub cost: u64,
}

/// Values in the order of the file.
pub type ValueList = List<Value>;

/// What a member of the start says.
#[derive(Drop)]
pub enum Fact {
    /// An atom is true.
    Holds(Atom),
    /// A function has a value, which stands at a place.
    Gives(Value, Place),
}

/// The facts and values at the start.
#[derive(Drop)]
pub struct Start {
    pub facts: AtomList,
    pub values: ValueList,
}
