//! What agents show each other of their factors, and the bytes of it.
#![tactic(auto)]

mod laws;
mod lines;
mod open;
mod parts;
mod sorted;
mod spelling;
mod view;

pub use laws::{
    one_view_joined_is_itself, shown_predicates_are_public, sorted_texts_are_the_same_texts,
};
pub use lines::view_bytes;
pub use open::{join, open_view};
pub use parts::sorted_parts;
pub use sorted::sorted_once;
pub use spelling::push_name;
pub use view::{Part, PartList, View};
