//! Messages of a walk back, and of the end without a plan.

ghost use Rattle.std.specs.Prelude.{◌≡◌, ◌==◌, ◌+◌, ◌^◌, List, length, not, OnOk};
ghost use Rattle.mp_snapshot.specs.Rules.{IsAnother};
ghost use Rattle.mp_machine.specs.declared.outgoing.Out.{Out};
ghost use Rattle.mp_machine.specs.MemberFields.{record_of, IsMember, IsReady};
ghost use Rattle.mp_machine.specs.MemberFields.{IsSameMember, IsTaken};
ghost use Rattle.mp_machine.specs.Taking.{ending_of, is_strange_length, is_strange_pick};
ghost use Rattle.mp_machine.specs.Taking.{is_strange_trace, knows_of_no_plan, took_done};
ghost use Rattle.mp_machine.specs.Taking.{took_length, took_pick, took_trace};
ghost use Rattle.mp_machine.specs.Verdicts.{is_proved};

use crate::event::Ending;
use crate::member::{LIMIT, Member};
use crate::outgoing::Outs;
use crate::refusal::{BadKind, StepRefusal};
use crate::walking::{solve, walk, walk_from_goal};
use mp_messages::EndKind;
use mp_search::Search;
use mp_sets::Agent;
use mp_snapshot::Verdict;
use mp_task::Heuristic;
use mp_trail::Trail;

/// Whether a verdict, if one was given, proves a plan to be cheapest.
fn is_proved(verdict: Option<Verdict>) -> bool
    ensures { result ≡ is_proved verdict }
{
    let Some(given) = verdict else {
        return false;
    };
    match given {
        Verdict::Proved(_, _) => true,
        _ => false,
    }
}

/// Whether the agent is agent 1, and has proved no plan to be cheapest.
fn knows_of_no_plan<H: Heuristic>(search: &Search<H>, member: &Member) -> bool
    requires { IsMember search.now.task member.now }
    ensures { result ≡ knows_of_no_plan (record_of search.now member.now) }
{
    let _ = search;
    member.me == Agent::first() && !is_proved(member.snapshot.verdict())
}

/// Whether own actions were noted.
fn has_noted(trail: &Trail) -> bool
    ensures { result ≡ not (length trail.now == 0) }
{
    !trail.fits(0)
}

/// Whether a pick is out of place.
fn is_strange_pick<H: Heuristic>(
    search: &Search<H>,
    member: &Member,
    from: Agent,
    number: u64,
) -> bool
    requires { IsMember search.now.task member.now }
    ensures { result ≡ is_strange_pick (record_of search.now member.now) from number }
{
    let _ = search;
    from != Agent::first()
        || number != member.snapshot.number()
        || member.snapshot.is_under_way()
        || member.goal.is_none()
        || member.picked
        || has_noted(&member.trail)
}

/// Takes a pick.
pub(crate) fn take_pick<H: Heuristic>(
    search: &Search<H>,
    member: &mut Member,
    from: Agent,
    number: u64,
    outs: &mut Outs,
) -> Result<(), StepRefusal>
    requires ready { IsReady search.now member.old }
    requires another { IsAnother member.old.snapshot from }
    ensures step { IsTaken result (took_pick (record_of search.now member.old) from number)
        outs.old outs.new (record_of search.now member.old) (record_of search.now member.new) }
    ensures ready { OnOk result (IsReady search.now member.new) }
    ensures team { IsSameMember member.old member.new }
{
    if is_strange_pick(search, member, from, number) {
        return Err(StepRefusal::Bad(BadKind::StrangePick));
    }
    member.picked = true;
    Ok(walk_from_goal(search, member, outs)?)
}

/// Whether a walk that so many actions come after can't go on at an entry.
fn is_strange_trace<H: Heuristic>(
    search: &Search<H>,
    member: &Member,
    entry: u64,
    back: u64,
) -> bool
    requires { IsMember search.now.task member.now }
    ensures { result ≡ is_strange_trace (record_of search.now member.now) entry back }
{
    entry >= LIMIT
        || back >= LIMIT - entry
        || !member.trail.fits(back)
        || knows_of_no_plan(search, member)
}

/// Takes a trace.
pub(crate) fn take_trace<H: Heuristic>(
    search: &Search<H>,
    member: &mut Member,
    sent: u64,
    back: u64,
    outs: &mut Outs,
) -> Result<(), StepRefusal>
    requires { IsReady search.now member.old }
    ensures step { IsTaken result (took_trace (record_of search.now member.old) sent back)
        outs.old outs.new (record_of search.now member.old) (record_of search.now member.new) }
    ensures ready { OnOk result (IsReady search.now member.new) }
    ensures team { IsSameMember member.old member.new }
{
    let store = search.store();
    let _ = store.count();
    let Some(entry) = store.sent_entry(sent) else {
        return Err(StepRefusal::Bad(BadKind::StrangeTrace));
    };
    if is_strange_trace(search, member, entry, back) {
        return Err(StepRefusal::Bad(BadKind::StrangeTrace));
    }
    Ok(walk(search, member, entry, back, outs)?)
}

/// Whether a plan of a length can't be.
fn is_strange_length<H: Heuristic>(search: &Search<H>, member: &Member, length: u64) -> bool
    requires { IsMember search.now.task member.now }
    ensures { result ≡ is_strange_length (record_of search.now member.now) length }
{
    !member.trail.fits(length) || knows_of_no_plan(search, member)
}

/// Takes a plan's length.
pub(crate) fn take_length<H: Heuristic>(
    search: &Search<H>,
    member: &mut Member,
    length: u64,
) -> Result<(), StepRefusal>
    requires { IsReady search.now member.old }
    ensures step { (outs : List Out) → IsTaken result
        (took_length (record_of search.now member.old) length) outs outs
        (record_of search.now member.old) (record_of search.now member.new) }
    ensures ready { OnOk result (IsReady search.now member.new) }
    ensures team { IsSameMember member.old member.new }
{
    if is_strange_length(search, member, length) {
        return Err(StepRefusal::Bad(BadKind::StrangeLength));
    }
    Ok(solve(member, length)?)
}

/// The end that a message tells of.
fn ending_of(kind: EndKind) -> Ending
    ensures { result ≡ ending_of kind }
{
    match kind {
        EndKind::NoPlan => Ending::NoPlan,
        EndKind::Spent => Ending::Spent,
    }
}

/// Takes an end without a plan.
pub(crate) fn take_done<H: Heuristic>(
    search: &Search<H>,
    member: &mut Member,
    from: Agent,
    kind: EndKind,
) -> Result<(), StepRefusal>
    requires { IsReady search.now member.old }
    ensures step { (outs : List Out) → IsTaken result
        (took_done (record_of search.now member.old) from kind) outs outs
        (record_of search.now member.old) (record_of search.now member.new) }
    ensures ready { OnOk result (IsReady search.now member.new) }
    ensures team { IsSameMember member.old member.new }
{
    let _ = search;
    if from != Agent::first() {
        return Err(StepRefusal::Bad(BadKind::StrangeDone));
    }
    member.ending = ending_of(kind);
    Ok(())
}
