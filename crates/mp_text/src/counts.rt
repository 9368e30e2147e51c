//! How much the agents did and sent, by a log.

ghost use Rattle.std.specs.Prelude.{◌≡◌, length};
ghost use Rattle.mp_messages.specs.History.{schedule};
ghost use Rattle.mp_text.specs.Outcome.{messages as messages_of, message_bytes};

use mp_messages::{EntryView, Log};

/// How many events a log has, how many messages were put, and how many bytes these have.
#[derive(Clone, Copy)]
pub(crate) struct Counts {
    pub(crate) events: u64,
    pub(crate) messages: u64,
    pub(crate) bytes: u128,
}

/// The counts of a log.
pub(crate) fn count(log: &Log) -> Counts
    ensures events { result.events ≡ length (schedule log.now) }
    ensures messages { result.messages ≡ length (messages_of log.now) }
    ensures bytes { result.bytes ≡ message_bytes log.now }
{
    let mut events = 0;
    let mut messages = 0;
    let mut total = 0;
    for at in 0..log.len() {
        match log.entry(at) {
            EntryView::Act(_, _) => events += 1,
            EntryView::Put { bytes, .. } => {
                messages += 1;
                total += bytes.len() as u128;
            }
            EntryView::Took { .. } => events += 1,
        }
    }
    Counts {
        events,
        messages,
        bytes: total,
    }
}
