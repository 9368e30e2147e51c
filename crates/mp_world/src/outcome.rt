//! What a team found.

use crate::answer::Answer;
use mp_list::List;
use mp_trail::Share;

/// The share of a plan that each agent has, in the order of the agents.
pub type ShareList = List<Share>;

/// What a team of agents found.
#[derive(Drop)]
pub struct Outcome {
    /// How the search ended.
    pub answer: Answer,
    /// The own actions of each agent on the plan, by time: none where there is no plan.
    pub shares: ShareList,
}
