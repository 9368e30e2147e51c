//! Certificates that no plan is cheaper, as texts: written, and read from them (`specs/`).
#![tactic(auto)]

mod fact_lists;
mod formed;
mod from_flat;
mod laws;
mod lines;
mod numbers;
mod read;
#[cfg(test)]
mod tests;
mod unread;
mod write;

pub use laws::texts_have_one_reading;
pub use read::{CertificateRefusal, read_certificate, read_flat};
pub use write::certificate_text;
