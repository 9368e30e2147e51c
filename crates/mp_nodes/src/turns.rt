//! Turns of a node at the posts.

ghost use Rattle.std.specs.Prelude.{◌≡◌, ◌≢◌, ◌≤◌, ℕ, [], IfErr, IfOk, IfSome};
ghost use Rattle.mp_nodes.specs.Steps.{HasHanded, IsReady, IsTakenBack, Stops, me_of};
ghost use Rattle.mp_post.specs.Desks.{HoldsParty, IsDeskOf};
ghost use Rattle.mp_post_rule.specs.Table.{ArePosts};
ghost use Rattle.mp_post_rule.specs.Views.{party_at};

use crate::node::Node;
use crate::served::Stop;
use mp_messages::Bytes;
use mp_outside::Gate;
use mp_post::{Batch, Desk, Posts, TurnRefusal};
use mp_sets::Agent;
use mp_task::Heuristic;
use std::sync::Wait;

impl<H: Heuristic> Node<H> {
    /// What it did and has not signed, out of its place.
    fn take_batch(&mut self) -> Batch
        ensures batch { result ≡ self.old.batch }
        ensures left { self.new ≡ record self.old { batch = [] } }
    {
        std::mem::replace(&mut self.batch, Batch::new(self.alloc))
    }

    /// Puts that back.
    fn put_batch(&mut self, batch: Batch)
        ensures { self.new ≡ record self.old { batch = batch } }
    {
        self.batch = batch;
    }

    /// Takes what was not signed out of a refusal and puts it back: why the node does not go on.
    fn take_back(&mut self, refusal: TurnRefusal) -> Stop
        ensures { IsTakenBack refusal self.old self.new result }
    {
        match refusal {
            TurnRefusal::OutOfMemory(batch) => {
                self.put_batch(batch);
                Stop::OutOfMemory
            }
            TurnRefusal::Halted(agent, batch) => {
                self.put_batch(batch);
                Stop::Halted(agent)
            }
        }
    }

    /// Signs what its machine did, and takes the oldest message of a sender, where one is named.
    pub(crate) fn turn<R: Wait, G: Gate>(
        &mut self,
        rt: &R,
        posts: &Posts,
        desk: &mut Desk,
        from: Option<Agent>,
        gate: &G,
    ) -> Result<Option<Bytes>, Stop>
        requires posts { ArePosts posts.now.shared.table_id posts.now.shared.key }
        requires ready { IsReady H.value posts.now.shared.table_id posts.now.shared.key self.old desk.old }
        requires from { IfSome from (λ f. (f ≢ me_of self.old) × (f ≤ posts.now.shared.key)) }
        ensures machine { self.new.machine ≡ self.old.machine }
        ensures desk { IsDeskOf posts.now.shared.table_id posts.now.shared.key desk.new }
        ensures handed { IfOk result (λ handed. HasHanded H.value posts.now.shared.table_id posts.now.shared.key
            from handed self.new desk.new) }
        ensures stopped { IfErr result (Stops H.value posts.now.shared.table_id posts.now.shared.key self.new desk.new) }
        ensures others { (agent : ℕ) → agent ≢ me_of self.old
            → party_at desk.new.view agent ≡ party_at desk.old.view agent }
        ensures holds { HoldsParty (me_of self.old) desk.new.view }
    {
        let me = self.me();
        let batch = self.take_batch();
        match desk.turn(rt, posts, me, batch, from, gate) {
            Ok(handed) => Ok(handed),
            Err(refusal) => Err(self.take_back(refusal)),
        }
    }
}
