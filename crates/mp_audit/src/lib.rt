//! The audit of a certificate that no plan of a team is cheaper than a cost (`specs/`).
#![tactic(auto)]

mod auditing;
mod certificate;
mod chains;
mod complete;
mod entries;
mod flat_bounds;
mod flat_certificate;
mod flat_lists;
mod laws;
mod leading;
mod lookup;
mod same_state;
mod state;
mod successor;
mod table;
mod verdict;

pub use auditing::{audit, audit_flat};
pub use certificate::{Bound, BoundList, Certificate, FactLists};
pub use complete::last_cuts_pass_the_audit;
pub use flat_bounds::{FlatBound, FlatBounds, FlatCertificate};
pub use flat_lists::FlatLists;
pub use laws::{failures_are_what_is_wrong, no_plan_is_cheaper};
pub use verdict::AuditVerdict;
