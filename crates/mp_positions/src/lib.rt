//! As what the words and lists of a factor's file stand: from a place to what the format has there.
#![tactic(auto)]

mod conditions;
mod declared;
mod descent;
mod lists;
mod members;
mod roles;
mod trees;

pub use declared::{add_items, add_names, add_signatures, first_named, name_of, section_of};
pub use descent::{Position, position_at};
pub use roles::{Role, Signed};
pub use trees::{head, is_behind, is_list, members_of, place_of, word_at, word_of};
