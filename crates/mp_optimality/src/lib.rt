//! What shows for the files of a team that no plan is cheaper: the certificate of a search, and the audit of a certificate and a
//! plan (`specs/`).
#![tactic(auto)]

mod auditing;
mod certifying;
mod laws;
mod reading;
mod refusal;
mod told;
mod verdict;

pub use auditing::{PlanAudit, audit_plan};
pub use certifying::{Certified, certify};
pub use laws::refused_certificates_have_one_line;
pub use refusal::AuditRefusal;
pub use verdict::is_valid;
