//! Checks of a factor, which types lie under which, and the objects that are of a type.
#![tactic(auto)]

mod by_type;
mod checked;
mod checks;
mod declared;
mod each;
mod fault;
mod hierarchy;
mod index;
mod laws;
mod listed;
mod lower;
mod names;
mod parameters;
mod refusal;
mod repeats;
mod test_laws;
mod uses;

pub use checked::CheckedFactor;
pub use checks::check;
pub use fault::{Fault, FaultKind};
pub use hierarchy::{TypeList, names_of};
pub use laws::{first_fault_is_one, type_order_is_least, types_are_ordered};
pub use listed::ObjectList;
pub use refusal::{CheckRefusal, Found};
pub use test_laws::type_test_decides;
