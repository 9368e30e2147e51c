//! The search of one agent of MAD-A*, a distributed A*: what it expands, sends and keeps.
#![tactic(auto)]

mod answer;
mod concern;
mod context;
mod expansion;
mod laws;
mod offering;
mod reached;
mod receipt;
mod search;
mod sending;
mod states;

pub use answer::{AgentList, ExpandRefusal, ReceiveRefusal, Received, Sending, SendingList};
pub use laws::bytes_have_the_message_that_they_spell;
pub use search::Search;
pub use states::Shown;
