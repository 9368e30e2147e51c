//! What a node's machine does by itself, and with a message.

ghost use Rattle.std.specs.Prelude.{◌≡◌, ◌≢◌, ◌++◌, true, map, IfErr, None, OnOk};
ghost use Rattle.mp_machine.specs.LocalStep.{may};
ghost use Rattle.mp_machine.specs.declared.event.Local.TheVariants as locals;
ghost use Rattle.mp_nodes.specs.Nodes.{IsNode, orders};
ghost use Rattle.mp_nodes.specs.Steps.{HasActed, HasReceived, HasRefused, IsSameAgent, MayRefuse, local_of};
ghost use Rattle.mp_world.specs.Logs.{put_by};

use crate::node::Node;
use mp_list::OutOfMemory;
use mp_machine::{Local, Machine, Outs, StepRefusal};
use mp_messages::{Bytes, Entry, Kind};
use mp_outside::Kind3;
use mp_post::Batch;
use mp_sets::Agent;
use mp_task::Heuristic;

/// What an agent does by itself, as its machine sees it.
pub(crate) fn local_of(kind: Kind) -> Local
    ensures { result ≡ local_of kind }
{
    match kind {
        Kind::Expand => Local::Expand,
        Kind::Start => Local::Start,
    }
}

/// The messages of a step are behind what is unsigned.
fn put_all(batch: &mut Batch, me: Agent, outs: Outs) -> Result<(), OutOfMemory>
    ensures { OnOk result (batch.new ≡ batch.old ++ map (put_by me) outs) }
{
    for out in outs.into_items() {
        batch.push(Entry::Put {
            from: me,
            to: out.to,
            bytes: out.bytes,
        })?;
    }
    Ok(())
}

/// An agent's machine does what it may do by itself.
fn act<H: Heuristic>(
    machine: &mut Machine<H>,
    batch: &mut Batch,
    me: Agent,
    kind: Kind,
) -> Result<(), StepRefusal>
    ensures acted { OnOk result (HasActed H.value me (record { machine = machine.old; batch = batch.old })
        (record { machine = machine.new; batch = batch.new }) kind) }
    ensures task { machine.new.done.task ≡ machine.old.done.task }
    ensures limit { machine.new.done.limit ≡ machine.old.done.limit }
{
    let outs = machine.step(local_of(kind), None)?;
    batch.push(Entry::Act(me, kind))?;
    put_all(batch, me, outs)?;
    Ok(())
}

/// An agent's machine takes a message of another agent.
fn receive<H: Heuristic>(
    machine: &mut Machine<H>,
    batch: &mut Batch,
    me: Agent,
    from: Agent,
    bytes: &[u8],
) -> Result<(), StepRefusal>
    requires free { machine.old.stopped ≡ None }
    requires may { may machine.old.done (locals.Take from) ≡ true }
    ensures received { OnOk result (HasReceived H.value me (record { machine = machine.old; batch = batch.old })
        (record { machine = machine.new; batch = batch.new }) from bytes.now) }
    ensures refused { IfErr result (MayRefuse H.value me (record { machine = machine.old; batch = batch.old })
        (record { machine = machine.new; batch = batch.new }) from bytes.now) }
    ensures task { machine.new.done.task ≡ machine.old.done.task }
    ensures limit { machine.new.done.limit ≡ machine.old.done.limit }
{
    let outs = machine.step(Local::Take(from), Some(bytes))?;
    put_all(batch, me, outs)?;
    Ok(())
}

impl<H: Heuristic> Node<H> {
    /// Its machine does what it may do by itself.
    pub(crate) fn act(&mut self, kind: Kind) -> Result<(), StepRefusal>
        ensures acted { OnOk result (HasActed H.value self.old.machine.done.task.me self.old self.new kind) }
        ensures same { IsSameAgent self.old self.new }
    {
        act(&mut self.machine, &mut self.batch, self.me, kind)
    }

    /// Its machine takes a message of another agent.
    pub(crate) fn receive(&mut self, from: Agent, bytes: &Bytes) -> Result<(), StepRefusal>
        requires free { self.old.machine.stopped ≡ None }
        requires may { may self.old.machine.done (locals.Take from) ≡ true }
        ensures received { OnOk result (HasReceived H.value self.old.machine.done.task.me self.old self.new from bytes.now) }
        ensures refused { IfErr result (MayRefuse H.value self.old.machine.done.task.me self.old self.new from bytes.now) }
        ensures same { IsSameAgent self.old self.new }
    {
        receive(
            &mut self.machine,
            &mut self.batch,
            self.me,
            from,
            bytes.as_slice(),
        )
    }
}
