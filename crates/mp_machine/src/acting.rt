//! What may happen at an agent, and what an event leads to.

ghost use Rattle.std.specs.Prelude.{◌≡◌, true, [], IfOk, IfErr, OnOk};
ghost use Rattle.mp_messages.specs.Spelling.{Fits};
ghost use Rattle.mp_snapshot.specs.Rules.{IsAnother};
ghost use Rattle.mp_machine.specs.AgentRecord.{given_verdict, is_going};
ghost use Rattle.mp_machine.specs.LocalStep.{is_another, local, may, may_now, may_start};
ghost use Rattle.mp_machine.specs.MemberFields.{record_of, HasTaken, IsMember, IsReady};
ghost use Rattle.mp_machine.specs.MemberFields.{IsRefused, IsSameMember, IsTaken};
ghost use Rattle.mp_machine.specs.Taking.{took, took_message};
ghost use Rattle.mp_machine.specs.Verdicts.{is_deciding, proved_cost};

use crate::event::{Ending, Local};
use crate::member::{LIMIT, Member};
use crate::outgoing::Outs;
use crate::refusal::{BadKind, StepRefusal};
use crate::snapshots::{start, take_marker, take_report};
use crate::states::{expand, take_state};
use crate::tracing::{take_done, take_length, take_pick, take_trace};
use mp_messages::{DecodeRefusal, Message, decode};
use mp_search::{ReceiveRefusal, Search};
use mp_sets::Agent;
use mp_snapshot::Verdict;
use mp_task::Heuristic;

/// The cost of a plan that a verdict, if one was given, proves to be cheapest.
fn proved_cost(verdict: Option<Verdict>) -> Option<u64>
    ensures { result ≡ proved_cost verdict }
{
    let Some(given) = verdict else {
        return None;
    };
    match given {
        Verdict::Proved(_, cost) => Some(cost),
        _ => None,
    }
}

/// The verdict that was given on the last snapshot: agent 1 alone gives verdicts.
fn given_verdict<H: Heuristic>(search: &Search<H>, member: &Member) -> Option<Verdict>
    requires { IsMember search.now.task member.now }
    ensures { result ≡ given_verdict (record_of search.now member.now) }
{
    let _ = search;
    if member.me == Agent::first() {
        return member.snapshot.verdict();
    }
    None
}

/// The cost of the plan that agent 1 has proved to be cheapest.
pub(crate) fn cost_of<H: Heuristic>(search: &Search<H>, member: &Member) -> Option<u64>
    requires { IsMember search.now.task member.now }
    ensures { result ≡ proved_cost (given_verdict (record_of search.now member.now)) }
{
    proved_cost(given_verdict(search, member))
}

/// Whether a verdict, if one was given, decides the search of the team.
fn is_deciding(verdict: Option<Verdict>) -> bool
    ensures { result ≡ is_deciding verdict }
{
    let Some(given) = verdict else {
        return false;
    };
    match given {
        Verdict::Continue => false,
        _ => true,
    }
}

/// Whether agent 1 may start a snapshot.
fn may_start<H: Heuristic>(search: &Search<H>, member: &Member) -> bool
    requires { IsMember search.now.task member.now }
    ensures { result ≡ may_start (record_of search.now member.now) }
{
    member.me == Agent::first()
        && !search.can_expand()
        && !member.snapshot.is_under_way()
        && !is_deciding(given_verdict(search, member))
        && member.snapshot.number() < LIMIT - 1
}

/// Whether an agent is another one of the team.
fn is_another<H: Heuristic>(search: &Search<H>, member: &Member, agent: Agent) -> bool
    requires { IsMember search.now.task member.now }
    ensures { result ≡ is_another search.now.task agent }
{
    let _ = search;
    agent.number() <= member.agents && agent != member.me
}

/// Whether an agent has not ended.
fn is_going(ending: Ending) -> bool
    ensures { result ≡ is_going ending }
{
    match ending {
        Ending::Going => true,
        _ => false,
    }
}

/// Whether an event may happen at an agent that has not ended.
fn may_now<H: Heuristic>(search: &Search<H>, member: &Member, event: &Local) -> bool
    requires { IsMember search.now.task member.now }
    ensures { result ≡ may_now (record_of search.now member.now) event.now }
{
    match event {
        Local::Expand => search.can_expand(),
        Local::Take(from) => is_another(search, member, *from),
        Local::Start => may_start(search, member),
    }
}

/// Whether an event may happen.
pub(crate) fn may<H: Heuristic>(search: &Search<H>, member: &Member, event: &Local) -> bool
    requires { IsMember search.now.task member.now }
    ensures { result ≡ may (record_of search.now member.now) event.now }
{
    is_going(member.ending) && may_now(search, member, event)
}

/// Takes a message.
fn take_message<H: Heuristic>(
    search: &mut Search<H>,
    member: &mut Member,
    from: Agent,
    message: Message,
    outs: &mut Outs,
) -> Result<(), StepRefusal>
    requires ready { IsReady search.old member.old }
    requires another { IsAnother member.old.snapshot from }
    requires fits { Fits search.old.task.agents search.old.task.publics message }
    ensures step { IsTaken result
        (took_message (H.value search.old.task) (record_of search.old member.old) from message)
        outs.old outs.new
        (record_of search.old member.old) (record_of search.new member.new) }
    ensures ready { OnOk result (IsReady search.new member.new) }
    ensures team { IsSameMember member.old member.new }
    ensures task { search.new.task ≡ search.old.task }
    ensures limit { search.new.limit ≡ search.old.limit }
{
    match message {
        Message::State(state) => take_state(search, member, from, state),
        Message::Marker(number) => take_marker(search, member, from, number, outs),
        Message::Report(found) => take_report(search, member, from, found, outs),
        Message::Pick(number) => take_pick(search, member, from, number, outs),
        Message::Trace { sent, back } => take_trace(search, member, sent, back, outs),
        Message::Length(length) => take_length(search, member, length),
        Message::Done(kind) => take_done(search, member, from, kind),
    }
}

/// Takes the bytes of a message, of which a value is made first.
fn take_decoded<H: Heuristic>(
    search: &mut Search<H>,
    member: &mut Member,
    from: Agent,
    bytes: &[u8],
    outs: &mut Outs,
) -> Result<(), StepRefusal>
    requires ready { IsReady search.old member.old }
    requires another { IsAnother member.old.snapshot from }
    ensures step { IsTaken result
        (took (H.value search.old.task) (record_of search.old member.old) from bytes.now)
        outs.old outs.new
        (record_of search.old member.old) (record_of search.new member.new) }
    ensures ready { OnOk result (IsReady search.new member.new) }
    ensures team { IsSameMember member.old member.new }
    ensures task { search.new.task ≡ search.old.task }
    ensures limit { search.new.limit ≡ search.old.limit }
{
    match decode(member.alloc, member.agents, member.publics, bytes) {
        Ok(message) => take_message(search, member, from, message, outs),
        Err(DecodeRefusal::NotAMessage) => Err(StepRefusal::Bad(BadKind::NotASpelling)),
        Err(DecodeRefusal::OutOfMemory) => Err(StepRefusal::OutOfMemory),
    }
}

/// Takes the bytes of a message. The search itself reads a state, so that no value is made of it.
fn take<H: Heuristic>(
    search: &mut Search<H>,
    member: &mut Member,
    from: Agent,
    bytes: &[u8],
    outs: &mut Outs,
) -> Result<(), StepRefusal>
    requires ready { IsReady search.old member.old }
    requires another { IsAnother member.old.snapshot from }
    ensures step { IsTaken result
        (took (H.value search.old.task) (record_of search.old member.old) from bytes.now)
        outs.old outs.new
        (record_of search.old member.old) (record_of search.new member.new) }
    ensures ready { OnOk result (IsReady search.new member.new) }
    ensures team { IsSameMember member.old member.new }
    ensures task { search.new.task ≡ search.old.task }
    ensures limit { search.new.limit ≡ search.old.limit }
{
    match search.receive_bytes(from, bytes) {
        Ok(Some((_, f))) => {
            member.snapshot.state_seen(from, f);
            Ok(())
        }
        Ok(None) => take_decoded(search, member, from, bytes, outs),
        Err(ReceiveRefusal::UnknownToken) => Err(StepRefusal::Bad(BadKind::UnknownToken)),
        Err(ReceiveRefusal::WrongByte) => Err(StepRefusal::Bad(BadKind::WrongByte)),
        Err(ReceiveRefusal::OutOfMemory) => Err(StepRefusal::OutOfMemory),
    }
}

/// What an event that may happen leads to.
fn add_step<H: Heuristic>(
    search: &mut Search<H>,
    member: &mut Member,
    event: &Local,
    bytes: &[u8],
    outs: &mut Outs,
) -> Result<(), StepRefusal>
    requires ready { IsReady search.old member.old }
    requires may { may_now (record_of search.old member.old) event.now ≡ true }
    ensures step { IsTaken result
        (local (H.value search.old.task) (record_of search.old member.old) event.now bytes.now)
        outs.old outs.new
        (record_of search.old member.old) (record_of search.new member.new) }
    ensures ready { OnOk result (IsReady search.new member.new) }
    ensures team { IsSameMember member.old member.new }
    ensures task { search.new.task ≡ search.old.task }
    ensures limit { search.new.limit ≡ search.old.limit }
{
    match event {
        Local::Expand => expand(search, member, outs),
        Local::Take(from) => take(search, member, *from, bytes, outs),
        Local::Start => Ok(start(search, member, outs)?),
    }
}

/// What goes out at an event that may happen.
pub(crate) fn act<H: Heuristic>(
    search: &mut Search<H>,
    member: &mut Member,
    event: &Local,
    bytes: &[u8],
) -> Result<Outs, StepRefusal>
    requires ready { IsReady search.old member.old }
    requires may { may_now (record_of search.old member.old) event.now ≡ true }
    ensures taken { IfOk result (λ outs. HasTaken
        (local (H.value search.old.task) (record_of search.old member.old) event.now bytes.now)
        [] outs
        (record_of search.new member.new)) }
    ensures refused { IfErr result (λ e. IsRefused e
        (local (H.value search.old.task) (record_of search.old member.old) event.now bytes.now)
        (record_of search.old member.old) (record_of search.new member.new)) }
    ensures ready { OnOk result (IsReady search.new member.new) }
    ensures team { IsSameMember member.old member.new }
    ensures task { search.new.task ≡ search.old.task }
    ensures limit { search.new.limit ≡ search.old.limit }
{
    let mut outs = Outs::new(member.alloc);
    add_step(search, member, event, bytes, &mut outs)?;
    Ok(outs)
}
