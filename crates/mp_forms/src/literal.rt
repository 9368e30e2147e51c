//! Atoms and their negations.

use crate::atom_values::Atom;
use mp_list::List;

/// An atom or its negation.
#[derive(Drop)]
pub struct Literal {
    /// Whether the atom is to hold; otherwise it is not to hold.
    pub positive: bool,
    pub atom: Atom,
}

/// Literals in the order of the file.
pub type LiteralList = List<Literal>;
