//! The tasks of a team.

use mp_lifted::ActionBindingList;
use mp_list::List;
use mp_messages::Bytes;
use mp_task::TaskList;

/// For each agent, what its own actions stand for.
pub type StepsList = List<ActionBindingList>;

/// What each agent shows the others, as bytes.
pub type Views = List<Bytes>;

/// The nameless tasks of a team. All lists have the agents in their order.
#[derive(Drop)]
pub struct Tasks {
    /// The task of each agent.
    pub tasks: TaskList,
    /// For each agent, the actions of its file, with objects, that its own actions stand for by their numbers.
    pub steps: StepsList,
    /// The bytes of what each agent shows.
    pub views: Views,
}
