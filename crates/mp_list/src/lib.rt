//! Lists, and the one refusal that every crate shares: want of memory.
#![tactic(auto)]

mod compared;
mod copied;
mod fitting;
mod laws;
mod list;
mod memory;
mod small_list;

pub use copied::Copied;
pub use fitting::{does_not_fit, to_u32};
pub use laws::{first_is_one, repeat_has_earlier};
pub use list::List;
pub use memory::OutOfMemory;
pub use small_list::SmallList;
