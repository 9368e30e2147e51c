//! What is wrong with the two files of an agent.
#![tactic(auto)]

mod checked;
mod shaped;
mod told;

pub use mp_bracket_hints::FileText;
pub use told::explain_pair;
