//! Messages on their way out.

ghost use Rattle.std.specs.Prelude.{◌≡◌, ◌≤◌, ◌<◌, ◌==◌, ◌^◌, ◌-◌, ◌∷◌, ◌++◌, [], not, map, OnOk};
ghost use Rattle.mp_messages.specs.Spelling.{spelling, AreNumbers, FactsBelow};
ghost use Rattle.mp_search.specs.Concern.{one_if};
ghost use Rattle.mp_machine.specs.Outgoing.{copies, in_bytes, others, to_each};

use mp_list::{Copied, List, OutOfMemory};
use mp_messages::{Bytes, Message, encode};
use mp_sets::Agent;
use std::alloc::Global;

/// A message, as bytes, and the agent that it goes to.
#[derive(Drop)]
pub struct Out {
    /// The receiver.
    pub to: Agent,
    /// The message.
    pub bytes: Bytes,
}

/// What goes out, in this order.
pub type Outs = List<Out>;

/// Adds a message for an agent.
pub(crate) fn send(
    alloc: Global,
    outs: &mut Outs,
    to: Agent,
    message: &Message,
) -> Result<(), OutOfMemory>
    requires numbers { AreNumbers message.now }
    requires facts { FactsBelow (2 ^ 32 - 1) message.now }
    ensures { OnOk result (outs.new
        ≡ outs.old ++ record { to = to; bytes = spelling message.now } ∷ []) }
{
    let bytes = encode(alloc, message)?;
    outs.push(Out { to, bytes })
}

/// Adds a message, as bytes, for an agent.
fn send_bytes(outs: &mut Outs, to: Agent, bytes: Bytes) -> Result<(), OutOfMemory>
    ensures { OnOk result (outs.new ≡ outs.old ++ copies (to ∷ []) bytes) }
{
    outs.push(Out { to, bytes })
}

/// Adds a message, as bytes, for each of some agents. The last one gets the bytes themselves.
pub(crate) fn send_copies(
    outs: &mut Outs,
    agents: &[Agent],
    bytes: Bytes,
) -> Result<(), OutOfMemory>
    ensures { OnOk result (outs.new ≡ outs.old ++ copies agents.now bytes) }
{
    match agents {
        [] => Ok(()),
        [agent] => send_bytes(outs, *agent, bytes),
        [agent, rest @ ..] => {
            send_bytes(outs, *agent, bytes.copy()?)?;
            send_copies(outs, rest, bytes)
        }
    }
}

/// Adds a message for an agent of a number if it is another one.
fn send_to_another(
    alloc: Global,
    outs: &mut Outs,
    me: Agent,
    number: u16,
    message: &Message,
) -> Result<(), OutOfMemory>
    requires from_1 { 1 ≤ number }
    requires at_most { number ≤ 16 }
    requires numbers { AreNumbers message.now }
    requires facts { FactsBelow (2 ^ 32 - 1) message.now }
    ensures { OnOk result (outs.new
        ≡ outs.old ++ map in_bytes (to_each (one_if (not (number == me)) number) message.now)) }
{
    let Some(agent) = Agent::new(number) else {
        return Ok(());
    };
    if agent != me {
        send(alloc, outs, agent, message)?;
    }
    Ok(())
}

/// Adds a message for each other agent of a team of so many.
pub(crate) fn send_to_others(
    alloc: Global,
    outs: &mut Outs,
    me: Agent,
    agents: u16,
    message: &Message,
) -> Result<(), OutOfMemory>
    requires team { agents ≤ 16 }
    requires numbers { AreNumbers message.now }
    requires facts { FactsBelow (2 ^ 32 - 1) message.now }
    ensures { OnOk result (outs.new
        ≡ outs.old ++ map in_bytes (to_each (others me agents) message.now)) }
{
    for before in 0..agents {
        send_to_another(alloc, outs, me, before + 1, message)?;
    }
    Ok(())
}
