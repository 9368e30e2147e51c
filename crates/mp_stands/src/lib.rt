//! The two levels of the united problem joined: what it means that the nameless tasks of a team stand for its factors,
//! and that plans of both are then the same plans (`specs/`).
//!
//! The nameless tasks of a team stand for the factors of its agents: what an agent knows where it grounds its factor is
//! what is so in the team (`specs/`).
//!
//! Renaming the private names of one agent's files changes neither the tasks of a team nor what its agents show
//! (`specs/`).
#![tactic(auto)]

pub mod plans;
pub mod renaming;
pub mod tasks;
