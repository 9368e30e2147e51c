//! What an agent sent and took, by the log of its team.

use mp_messages::{EntryView, Kind, Log};
use mp_sets::Agent;

/// What an agent sent and took.
#[derive(Clone, Copy)]
pub(crate) struct Traffic {
    /// How many messages it sent.
    pub(crate) sent: u64,
    /// How many bytes these have.
    pub(crate) bytes: u64,
    /// How many messages it took.
    pub(crate) received: u64,
    /// How many snapshots it started or joined.
    pub(crate) snapshots: u64,
}

/// Whether the bytes of a message are those of a marker, the message that a snapshot begins with: their first one says of
/// which kind a message is.
fn is_marker(bytes: &[u8]) -> bool {
    match bytes {
        [kind, ..] => *kind == 2,
        [] => false,
    }
}

impl Traffic {
    /// Nothing was sent and nothing taken.
    fn new() -> Traffic {
        Traffic {
            sent: 0,
            bytes: 0,
            received: 0,
            snapshots: 0,
        }
    }

    /// With a snapshot more.
    fn with_snapshot(self) -> Traffic {
        Traffic {
            snapshots: self.snapshots.saturating_add(1),
            ..self
        }
    }

    /// With a message more that was taken.
    fn with_taken(self) -> Traffic {
        Traffic {
            received: self.received.saturating_add(1),
            ..self
        }
    }

    /// With a message of these bytes more that was sent.
    fn with_sent(self, bytes: &[u8]) -> Traffic {
        Traffic {
            sent: self.sent.saturating_add(1),
            bytes: self.bytes.saturating_add(bytes.len() as u64),
            ..self
        }
    }

    /// With a message more that was sent to an agent. In each snapshot that an agent joins, it sends one marker to agent 1.
    fn with_put(self, to: Agent, bytes: &[u8]) -> Traffic {
        let sent = self.with_sent(bytes);
        if to == Agent::first() && is_marker(bytes) {
            return sent.with_snapshot();
        }
        sent
    }

    /// With what an agent did by itself.
    fn with_act(self, kind: Kind) -> Traffic {
        match kind {
            Kind::Expand => self,
            Kind::Start => self.with_snapshot(),
        }
    }

    /// With what an entry of the log tells of an agent.
    fn with_entry(self, agent: Agent, entry: &EntryView<'_>) -> Traffic {
        match entry {
            EntryView::Act(by, kind) if *by == agent => self.with_act(*kind),
            EntryView::Put { from, to, bytes } if *from == agent => self.with_put(*to, *bytes),
            EntryView::Took { by, .. } if *by == agent => self.with_taken(),
            _ => self,
        }
    }
}

/// What an agent sent and took, by the log of its team.
pub(crate) fn traffic_of(agent: Agent, log: &Log) -> Traffic {
    let mut traffic = Traffic::new();
    for at in 0..log.len() {
        traffic = traffic.with_entry(agent, &log.entry(at));
    }
    traffic
}
