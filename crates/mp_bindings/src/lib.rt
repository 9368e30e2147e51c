//! Bindings: lists of objects, one for each parameter, that pass a test (`specs/Bindings.antt`).
#![tactic(auto)]

mod choices;
mod enumeration;
mod laws;
mod stop;
mod takes;

pub use choices::Choices;
pub use enumeration::walk;
pub use laws::bindings_rise;
pub use stop::Stop;
pub use takes::TakesBindings;
