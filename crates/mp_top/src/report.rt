//! What a call leaves to its caller beside the status.

ghost use Rattle.mp_top.specs.Report.{IsEmptyReport};

use mp_list::List;
use mp_messages::{Log, Views};
use mp_world::Answer;
use std::alloc::Global;

/// What was found, and how: what each agent showed the others, as bytes, the log of what the agents did, and the answer.
/// It is empty, with the answer `Nothing`, where a call ends without an outcome.
#[derive(Drop)]
pub struct Report {
    pub views: Views,
    pub log: Log,
    pub answer: Answer,
}

impl Report {
    /// The empty report, which takes no memory yet.
    pub fn new(alloc: Global) -> Report
        ensures { IsEmptyReport result }
    {
        Report {
            views: List::new(alloc),
            log: Log::new(alloc),
            answer: Answer::Nothing,
        }
    }
}
