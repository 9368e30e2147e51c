//! What a text spells: words and lists, each with its place.

use crate::name::Name;

/// Where a word or list stands in a text: at its first byte. Lines and columns count from 1; a column
/// counts bytes, and a line ends with the byte 10.
#[derive(Clone, Copy, Debug, PartialEq, Eq)]
pub struct Place {
    pub line: u32,
    pub column: u32,
}

/// A word, or a list in brackets.
#[cycle(tree)]
#[derive(Drop)]
pub enum Tree {
    Word(Name, Place),
    List(TreeList, Place),
}

/// The members of a list, in the order of the text.
#[cycle(tree)]
#[derive(Drop)]
pub struct TreeList {
    pub items: Vec<Tree>,
}
