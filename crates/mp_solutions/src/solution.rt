//! What the agents of a team find.

use mp_messages::{Bytes, Log, Views};
use mp_world::Answer;

/// What the agents of a team found, and how.
#[derive(Drop)]
pub struct Solution {
    /// What each agent showed the others before the search, as bytes.
    pub views: Views,
    /// What the agents did: each event, and behind it the messages that went out.
    pub log: Log,
    /// How the search ended.
    pub answer: Answer,
    /// The text that tells the answer, the plan where there is one, and how much the agents did.
    pub text: Bytes,
}
