//! Grounding by numbers joined to grounding by names: what an agent's factor becomes once objects stand for all
//! parameters (`specs/`).
#![tactic(auto)]

pub mod laws;
