//! What is wrong with the names of an agent's two files, and which names they declare.
#![tactic(auto)]

mod arity;
mod known;
mod owner;
mod pair;
mod told;
mod twice;
mod unknown;

pub use pair::Pair;
pub use told::tell_check;
