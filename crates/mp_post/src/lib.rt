//! Posts, by which agents that run in threads hand messages over, and the one log of all that they signed.
#![tactic(auto)]

mod closing;
mod crossing;
mod desk;
mod growth;
mod halting;
mod locks;
mod moving;
mod opening;
mod own;
mod parts;
mod receiving;
mod refusal;
#[cfg(test)]
mod ring;
mod signing;
#[cfg(test)]
mod tests;
mod turn;

pub use closing::Lists;
pub use crossing::desks_cross_threads;
pub use desk::Desk;
pub use mp_post_rule::Posts;
pub use opening::make;
pub use refusal::{Batch, TurnRefusal};
