//! When a node signs what it did without taking a message.

ghost use Rattle.std.specs.Prelude.{◌≡◌};
ghost use Rattle.mp_nodes.specs.Steps.{GoesOn, IsReady};
ghost use Rattle.mp_post_rule.specs.Table.{ArePosts};

use crate::node::Node;
use crate::served::Stop;
use mp_machine::Ending;
use mp_messages::Entry;
use mp_outside::Gate;
use mp_post::{Desk, Posts};
use mp_task::Heuristic;
use std::sync::Wait;

/// The most entries that an agent leaves unsigned for which nobody waits.
const MOST_UNSIGNED: usize = 256;

/// Whether an entry puts a message.
fn is_put(entry: &Entry) -> bool {
    match entry {
        Entry::Put { .. } => true,
        _ => false,
    }
}

/// Whether there is a message among some entries.
fn have_put(entries: &[Entry]) -> bool {
    for entry in entries {
        if is_put(entry) {
            return true;
        }
    }
    false
}

impl<H: Heuristic> Node<H> {
    /// Whether it is time to sign: somebody waits for a message, there is much, or no more comes.
    fn is_due(&self) -> bool {
        if self.batch.len() == 0 {
            return false;
        }
        match self.machine.ending() {
            Ending::Going => { self.batch.len() > MOST_UNSIGNED || have_put(self.batch.as_slice()) }
            _ => true,
        }
    }

    /// Signs what it did, where it is time for that, after this was done: whether it was.
    pub(crate) fn sign_after<R: Wait, G: Gate>(
        &mut self,
        rt: &R,
        posts: &Posts,
        desk: &mut Desk,
        did: bool,
        gate: &G,
    ) -> Result<bool, Stop>
        requires posts { ArePosts posts.now.shared.table_id posts.now.shared.key }
        requires ready { IsReady H.value posts.now.shared.table_id posts.now.shared.key self.old desk.old }
        ensures { GoesOn H.value posts.now.shared.table_id posts.now.shared.key self.old desk.old result self.new desk.new }
    {
        if !self.is_due() {
            return Ok(did);
        }
        match self.turn(rt, posts, desk, None, gate) {
            Ok(handed) => {
                drop(handed);
                Ok(did)
            }
            Err(stop) => Err(stop),
        }
    }
}
