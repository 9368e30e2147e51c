//! Agents that threads serve: each with what it did and has not signed yet, and what a worker does that serves some of
//! them at the posts of their team.
#![tactic(auto)]

mod alone;
mod node;
mod nodes;
mod served;
mod serving;
mod signing;
mod steps;
mod taking;
mod turns;

pub use node::Node;
pub use nodes::Nodes;
pub use served::Served;
pub use serving::serve;
