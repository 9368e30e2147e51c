//! What a node does by itself.

ghost use Rattle.std.specs.Prelude.{◌≡◌, ℕ};
ghost use Rattle.atomic_table.specs.Seated.{TableId};
ghost use Rattle.mp_nodes.specs.Steps.{GoesOn, IsReady};
ghost use Rattle.mp_post.specs.Desks.{SeenDesk};

use crate::node::Node;
use crate::served::Stop;
use crate::steps::local_of;
use mp_messages::Kind;
use mp_outside::{Gate, Kind3};
use mp_sets::Agent;
use mp_task::Heuristic;
use mp_team_verdicts::messages_go_to_others;

/// What a gate is told of what an agent does by itself.
fn told_of(kind: Kind) -> Kind3 {
    match kind {
        Kind::Expand => Kind3::Expand,
        Kind::Start => Kind3::Start,
    }
}

impl<H: Heuristic> Node<H> {
    /// Does something by itself if it may: whether it did.
    fn act_if<G: Gate>(&mut self, kind: Kind, gate: &G) -> Result<bool, Stop>
        ensures { (table : TableId) (agents : ℕ) (d : SeenDesk) → IsReady H.value table agents self.old d
            → GoesOn H.value table agents self.old d result self.new d }
    {
        messages_go_to_others();
        if !self.machine.can(&local_of(kind)) {
            return Ok(false);
        }
        gate.pass(self.me, told_of(kind));
        match self.act(kind) {
            Ok(()) => Ok(true),
            Err(_) => Err(Stop::OutOfMemory),
        }
    }

    /// Agent 1 starts a snapshot if it may: whether it did.
    fn start_if_first<G: Gate>(&mut self, gate: &G) -> Result<bool, Stop>
        ensures { (table : TableId) (agents : ℕ) (d : SeenDesk) → IsReady H.value table agents self.old d
            → GoesOn H.value table agents self.old d result self.new d }
    {
        if self.me() == Agent::first() {
            return self.act_if(Kind::Start, gate);
        }
        Ok(false)
    }

    /// Agent 1 starts a snapshot if it may, after this was done: whether anything was.
    fn start_after<G: Gate>(&mut self, did: bool, gate: &G) -> Result<bool, Stop>
        ensures { (table : TableId) (agents : ℕ) (d : SeenDesk) → IsReady H.value table agents self.old d
            → GoesOn H.value table agents self.old d result self.new d }
    {
        match self.start_if_first(gate) {
            Ok(started) => Ok(did || started),
            Err(stop) => Err(stop),
        }
    }

    /// Expands once if it may, and then agent 1 starts a snapshot if it may: whether it did one or the other.
    pub(crate) fn act_alone<G: Gate>(&mut self, gate: &G) -> Result<bool, Stop>
        ensures { (table : TableId) (agents : ℕ) (d : SeenDesk) → IsReady H.value table agents self.old d
            → GoesOn H.value table agents self.old d result self.new d }
    {
        match self.act_if(Kind::Expand, gate) {
            Ok(expanded) => self.start_after(expanded, gate),
            Err(stop) => Err(stop),
        }
    }
}
