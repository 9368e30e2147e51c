//! What an agent's factor becomes once objects stand for all parameters: its own facts and actions
//! by numbers, and the texts of its public facts (`specs/`).
#![tactic(auto)]

mod grounded;
mod grounding;
mod names;
mod places;
mod refusal;
mod stepping;
mod texts;
mod turning;

pub use grounded::Ground;
pub use grounding::ground;
pub use refusal::GroundRefusal;
pub use stepping::StepNames;
