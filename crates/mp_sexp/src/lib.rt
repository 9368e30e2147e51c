//! The text of a factor file, read as a tree of words and brackets.
//!
//! Names with numbers.
#![tactic(auto)]

mod bytes;
mod name;
mod numbers;
mod open_lists;
mod reader;
mod reading;
mod refusal;
mod short;
mod table;
mod tree;

pub use name::{Name, NameList};
pub use numbers::numbers_are_places;
pub use reading::{read, tree_or_fault};
pub use refusal::ReadRefusal;
pub use table::NameTable;
pub use tree::{Place, Tree, TreeList};
