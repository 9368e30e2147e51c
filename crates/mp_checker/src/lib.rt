//! The plan checker: what is wrong first with a plan by names, or what it costs. It grounds nothing.
#![tactic(auto)]

mod actions;
mod asked;
mod at;
mod atoms;
mod changes;
mod checks;
mod cost;
mod fact;
mod factor;
mod facts;
mod found;
mod goals;
mod key;
mod marks;
mod members;
mod mixed;
mod numbered;
mod objects;
mod places;
mod room;
mod sink;
mod standing;
mod start;
mod taken;
mod team;
mod told;
mod values;
mod words;

pub use checks::{check, check_with_steps};
pub use mp_plan_verdict::CheckVerdict;
pub use sink::StepSink;
