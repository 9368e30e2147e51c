//! What effects say: adds, deletes and increases of the total cost.

use crate::atom_values::{Atom, AtomList};
use mp_list::List;

/// By how much an action increases the total cost.
#[derive(Drop)]
pub enum Increase {
    /// By a cost of at most 1,000,000.
    Number(u64),
    /// By the value of a function.
    Function(Atom),
}

/// Increases in the order of the file.
pub type IncreaseList = List<Increase>;

/// What a conjunct of an effect does.
#[derive(Drop)]
pub enum Change {
    /// It makes an atom true.
    Add(Atom),
    /// It makes an atom false.
    Delete(Atom),
    /// It increases the total cost.
    Grow(Increase),
}

/// What an effect does.
#[derive(Drop)]
pub struct Effect {
    pub add: AtomList,
    pub del: AtomList,
    pub increases: IncreaseList,
}
