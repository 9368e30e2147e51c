//! States that go out and come in.

ghost use Rattle.std.specs.Prelude.{◌≡◌, ◌++◌, true, List, All, Ok, OnOk};
ghost use Rattle.std.specs.List.{flat_map};
ghost use Rattle.mp_search.specs.Expansion.{expanded};
ghost use Rattle.mp_search.specs.Receipt.{IsStateFor};
ghost use Rattle.mp_search.specs.Search.{may_expand};
ghost use Rattle.mp_snapshot.specs.Rules.{IsAnother};
ghost use Rattle.mp_machine.specs.declared.outgoing.Out.{Out};
ghost use Rattle.mp_machine.specs.LocalStep.{with_search};
ghost use Rattle.mp_machine.specs.MemberFields.{record_of, IsReady, IsSameMember, IsTaken};
ghost use Rattle.mp_machine.specs.MemberFields.{SendingFits, sent_state};
ghost use Rattle.mp_machine.specs.Taking.{took_state};

use crate::member::Member;
use crate::outgoing::{Outs, send_copies};
use crate::refusal::{BadKind, StepRefusal};
use mp_list::OutOfMemory;
use mp_messages::{State, encode_state};
use mp_search::{ReceiveRefusal, Search, Sending};
use mp_sets::Agent;
use mp_task::Heuristic;
use std::alloc::Global;

/// Sends a state to the agents that it is for.
fn send_state(alloc: Global, sending: &Sending, outs: &mut Outs) -> Result<(), OutOfMemory>
    requires { SendingFits sending.now }
    ensures { OnOk result (outs.new ≡ outs.old ++ sent_state sending.now) }
{
    let bytes = encode_state(alloc, &sending.state)?;
    send_copies(outs, sending.to.as_slice(), bytes)
}

/// Sends states, each to the agents that it is for.
fn send_states(alloc: Global, sendings: &[Sending], outs: &mut Outs) -> Result<(), OutOfMemory>
    requires { All SendingFits sendings.now }
    ensures { OnOk result (outs.new ≡ outs.old ++ flat_map sent_state sendings.now) }
{
    for sending in sendings {
        send_state(alloc, sending, outs)?;
    }
    Ok(())
}

/// Expands the least open entry, and sends what is to be sent.
pub(crate) fn expand<H: Heuristic>(
    search: &mut Search<H>,
    member: &Member,
    outs: &mut Outs,
) -> Result<(), StepRefusal>
    requires ready { IsReady search.old member.now }
    requires may { may_expand search.old.limit search.old.done ≡ true }
    ensures step { IsTaken result
        (Ok (with_search (record_of search.old member.now)
        (expanded search.old.task (H.value search.old.task) search.old.done)))
        outs.old outs.new (record_of search.old member.now) (record_of search.new member.now) }
    ensures ready { OnOk result (IsReady search.new member.now) }
    ensures task { search.new.task ≡ search.old.task }
    ensures limit { search.new.limit ≡ search.old.limit }
{
    match search.expand() {
        Ok(sendings) => Ok(send_states(member.alloc, sendings.as_slice(), outs)?),
        Err(_) => Err(StepRefusal::OutOfMemory),
    }
}

/// Takes a state.
pub(crate) fn take_state<H: Heuristic>(
    search: &mut Search<H>,
    member: &mut Member,
    from: Agent,
    state: State,
) -> Result<(), StepRefusal>
    requires ready { IsReady search.old member.old }
    requires another { IsAnother member.old.snapshot from }
    requires state { IsStateFor search.old.task state }
    ensures step { (outs : List Out) → IsTaken result
        (took_state (H.value search.old.task) (record_of search.old member.old) from state)
        outs outs (record_of search.old member.old) (record_of search.new member.new) }
    ensures ready { OnOk result (IsReady search.new member.new) }
    ensures team { IsSameMember member.old member.new }
    ensures task { search.new.task ≡ search.old.task }
    ensures limit { search.new.limit ≡ search.old.limit }
{
    let f = state.g + state.h;
    match search.receive(from, state) {
        Ok(_) => {
            member.snapshot.state_seen(from, f);
            Ok(())
        }
        Err(ReceiveRefusal::UnknownToken) => Err(StepRefusal::Bad(BadKind::UnknownToken)),
        Err(ReceiveRefusal::WrongByte) => Err(StepRefusal::Bad(BadKind::WrongByte)),
        Err(ReceiveRefusal::OutOfMemory) => Err(StepRefusal::OutOfMemory),
    }
}
