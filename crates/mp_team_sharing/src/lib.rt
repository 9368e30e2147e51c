//! Which factors of a team declare which predicates and objects, and how.
#![tactic(auto)]

mod candidates;
mod declared;
mod likeness;
mod sharing;

pub use candidates::nearest_to;
pub use declared::{Declared, Kind, declared_by};
pub use likeness::first_unlike;
pub use sharing::{Sharing, SharingMap, bit_of, sharing_of};
