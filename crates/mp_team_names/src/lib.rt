//! Hints on the names that the factors of a team share: names that one factor alone has, predicates that factors declare
//! in different ways, names that are private in one and public in another, and domains of different names.
#![tactic(auto)]

mod domains;
mod hints;
mod told;

pub use hints::explain_names;
