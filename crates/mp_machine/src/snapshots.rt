//! An agent's part in the snapshots of its team.

ghost use Rattle.std.specs.Prelude.{◌≡◌, ◌+◌, ◌<◌, ◌≤◌, ◌^◌, ◌++◌, ℕ, [], true, false};
ghost use Rattle.std.specs.Prelude.{if◌then◌else◌, length, map, option_map, OnOk};
ghost use Rattle.mp_snapshot.specs.Rules.{begun, is_under_way, is_whole, own, IsAnother};
ghost use Rattle.mp_machine.specs.AgentRecord.{given_verdict};
ghost use Rattle.mp_machine.specs.LocalStep.{may_start};
ghost use Rattle.mp_machine.specs.MemberFields.{record_of, HasStepped, IsReady};
ghost use Rattle.mp_machine.specs.MemberFields.{IsSameMember, IsTaken};
ghost use Rattle.mp_machine.specs.Outgoing.{after_sending, in_bytes, others, to_each, to_others};
ghost use Rattle.mp_machine.specs.Snapshots.{by_verdict, found_by, goal_entry, if_walkable};
ghost use Rattle.mp_machine.specs.Snapshots.{judged, judged_or_reported, started, with_notes};
ghost use Rattle.mp_machine.specs.Taking.{knows_of_no_plan, took_marker, took_report};

use crate::event::Ending;
use crate::member::{LIMIT, Member};
use crate::outgoing::{Outs, send, send_to_others};
use crate::refusal::{BadKind, StepRefusal};
use crate::walking::walk_from_goal;
use mp_list::OutOfMemory;
use mp_messages::{EndKind, Findings, Message};
use mp_search::Search;
use mp_sets::Agent;
use mp_snapshot::Verdict;
use mp_task::Heuristic;

/// The cost of a goal entry that was found.
fn cost_of(goal: Option<(u64, u64)>) -> Option<u64>
    ensures { result ≡ option_map (λ found. found.0) goal }
{
    match goal {
        Some((cost, _)) => Some(cost),
        None => None,
    }
}

/// What a search has found.
fn findings<H: Heuristic>(search: &Search<H>) -> Findings
    ensures { result ≡ found_by search.now.limit search.now.done }
{
    let store = search.store();
    Findings {
        number: 0,
        least: store.least_f(),
        under_way: None,
        goal: cost_of(store.least_goal()),
        spent: search.spent(),
    }
}

/// The number of a goal entry that was found, if a plan can be walked back from it.
fn if_walkable(goal: Option<(u64, u64)>) -> Option<u64>
    ensures { result ≡ if_walkable goal }
{
    match goal {
        Some((_, entry)) => { if entry < LIMIT { Some(entry) } else { None } }
        None => None,
    }
}

/// The lowest goal entry of the least cost.
fn goal_entry<H: Heuristic>(search: &Search<H>) -> Option<u64>
    ensures { result ≡ goal_entry search.now.done.kept }
{
    if_walkable(search.store().least_goal())
}

/// Notes what the agent has as a snapshot begins here.
fn note<H: Heuristic>(search: &Search<H>, member: &mut Member)
    ensures { member.new ≡ record member.old {
      noted = length search.now.done.kept.entries;
      goal = goal_entry search.now.done.kept;
    } }
{
    member.noted = search.store().count();
    member.goal = goal_entry(search);
}

/// The search ends without a plan: the agent ends, and tells all others.
fn end_without_plan(
    member: &mut Member,
    ending: Ending,
    kind: EndKind,
    outs: &mut Outs,
) -> Result<(), OutOfMemory>
    requires { member.old.agents ≤ 16 }
    ensures out { OnOk result (outs.new
        ≡ outs.old ++ map in_bytes
        (to_each (others member.old.me member.old.agents) (Message.Done kind))) }
    ensures member { member.new ≡ record member.old { ending = ending } }
{
    member.ending = ending;
    let message = Message::Done(kind);
    send_to_others(member.alloc, outs, member.me, member.agents, &message)
}

/// A plan is proved to be cheapest: its agent begins to walk it back.
fn pick<H: Heuristic>(
    search: &Search<H>,
    member: &mut Member,
    agent: Agent,
    outs: &mut Outs,
) -> Result<(), OutOfMemory>
    requires ready { IsReady search.now member.old }
    requires trail { member.old.trail ≡ [] }
    requires plan { knows_of_no_plan (record_of search.now member.old) ≡ false }
    ensures step { (cost : ℕ) → OnOk result (HasStepped
        (by_verdict (record_of search.now member.old) (Verdict.Proved agent cost))
        outs.old outs.new (record_of search.now member.new)) }
    ensures ready { OnOk result (IsReady search.now member.new) }
    ensures team { IsSameMember member.old member.new }
{
    if agent == member.me {
        return walk_from_goal(search, member, outs);
    }
    let message = Message::Pick(member.snapshot.number());
    send(member.alloc, outs, agent, &message)
}

/// Agent 1 does what a verdict asks for.
fn carry_out<H: Heuristic>(
    search: &Search<H>,
    member: &mut Member,
    verdict: Verdict,
    outs: &mut Outs,
) -> Result<(), OutOfMemory>
    requires ready { IsReady search.now member.old }
    requires trail { member.old.trail ≡ [] }
    requires given { given_verdict (record_of search.now member.old) ≡ Some verdict }
    ensures step { OnOk result (HasStepped (by_verdict (record_of search.now member.old) verdict)
        outs.old outs.new (record_of search.now member.new)) }
    ensures ready { OnOk result (IsReady search.now member.new) }
    ensures team { IsSameMember member.old member.new }
{
    match verdict {
        Verdict::Proved(agent, _) => pick(search, member, agent, outs),
        Verdict::NoPlan => end_without_plan(member, Ending::NoPlan, EndKind::NoPlan, outs),
        Verdict::Spent(_) => end_without_plan(member, Ending::Spent, EndKind::Spent, outs),
        Verdict::Continue => Ok(()),
    }
}

/// Agent 1 gives its verdict once the findings of all agents are here.
pub(crate) fn judge<H: Heuristic>(
    search: &Search<H>,
    member: &mut Member,
    outs: &mut Outs,
) -> Result<(), OutOfMemory>
    requires ready { IsReady search.now member.old }
    requires first { member.old.me ≡ 1 }
    requires trail { member.old.trail ≡ [] }
    ensures step { OnOk result (HasStepped (judged (record_of search.now member.old))
        outs.old outs.new (record_of search.now member.new)) }
    ensures ready { OnOk result (IsReady search.now member.new) }
    ensures team { IsSameMember member.old member.new }
{
    match member.snapshot.verdict() {
        Some(verdict) => carry_out(search, member, verdict, outs),
        None => Ok(()),
    }
}

/// Agent 1 begins the next snapshot, and notes what it has.
fn begin<H: Heuristic>(search: &Search<H>, member: &mut Member)
    requires first { member.old.snapshot.me ≡ 1 }
    requires free { is_under_way member.old.snapshot ≡ false }
    requires room { member.old.snapshot.number + 1 < 2 ^ 60 }
    ensures { member.new ≡ record member.old {
      snapshot = begun member.old.snapshot (member.old.snapshot.number + 1)
          (found_by search.now.limit search.now.done);
      noted = length search.now.done.kept.entries;
      goal = goal_entry search.now.done.kept;
    } }
{
    member.snapshot.start(findings(search));
    note(search, member);
}

/// Agent 1 starts the next snapshot.
pub(crate) fn start<H: Heuristic>(
    search: &Search<H>,
    member: &mut Member,
    outs: &mut Outs,
) -> Result<(), OutOfMemory>
    requires ready { IsReady search.now member.old }
    requires may { may_start (record_of search.now member.old) ≡ true }
    ensures step { OnOk result (HasStepped (started (record_of search.now member.old))
        outs.old outs.new (record_of search.now member.new)) }
    ensures ready { OnOk result (IsReady search.now member.new) }
    ensures team { IsSameMember member.old member.new }
{
    begin(search, member);
    let message = Message::Marker(member.snapshot.number());
    send_to_others(member.alloc, outs, member.me, member.agents, &message)?;
    judge(search, member, outs)
}

/// Agent 1 gives its verdict, and another agent reports its findings where they are whole.
fn judge_or_report<H: Heuristic>(
    search: &Search<H>,
    member: &mut Member,
    whole: Option<Findings>,
    outs: &mut Outs,
) -> Result<(), OutOfMemory>
    requires ready { IsReady search.now member.old }
    requires trail { search.now.task.me ≡ 1 → member.old.trail ≡ [] }
    requires whole { whole
        ≡ (if is_whole member.old.snapshot then Some (own member.old.snapshot) else None) }
    ensures step { OnOk result (HasStepped (judged_or_reported (record_of search.now member.old))
        outs.old outs.new (record_of search.now member.new)) }
    ensures ready { OnOk result (IsReady search.now member.new) }
    ensures team { IsSameMember member.old member.new }
{
    if member.me == Agent::first() {
        return judge(search, member, outs);
    }
    match whole {
        Some(found) => {
            let message = Message::Report(found);
            send(member.alloc, outs, Agent::first(), &message)
        }
        None => Ok(()),
    }
}

/// A snapshot begins here with a marker: the agent notes what it has, and tells all others.
fn begin_here<H: Heuristic>(
    search: &Search<H>,
    member: &mut Member,
    number: u64,
    whole: Option<Findings>,
    outs: &mut Outs,
) -> Result<(), OutOfMemory>
    requires ready { IsReady search.now member.old }
    requires small { number < 2 ^ 60 }
    requires trail { search.now.task.me ≡ 1 → member.old.trail ≡ [] }
    requires whole { whole
        ≡ (if is_whole member.old.snapshot then Some (own member.old.snapshot) else None) }
    ensures step { OnOk result (HasStepped
        (after_sending (to_others search.now.task (Message.Marker number))
        (judged_or_reported (with_notes member.old.snapshot (record_of search.now member.old))))
        outs.old outs.new (record_of search.now member.new)) }
    ensures ready { OnOk result (IsReady search.now member.new) }
    ensures team { IsSameMember member.old member.new }
{
    note(search, member);
    let message = Message::Marker(number);
    send_to_others(member.alloc, outs, member.me, member.agents, &message)?;
    judge_or_report(search, member, whole, outs)
}

/// Takes a marker. By the first one the snapshot begins here.
pub(crate) fn take_marker<H: Heuristic>(
    search: &Search<H>,
    member: &mut Member,
    from: Agent,
    number: u64,
    outs: &mut Outs,
) -> Result<(), StepRefusal>
    requires ready { IsReady search.now member.old }
    requires another { IsAnother member.old.snapshot from }
    requires small { number < 2 ^ 60 }
    ensures step { IsTaken result (took_marker (record_of search.now member.old) from number)
        outs.old outs.new (record_of search.now member.old) (record_of search.now member.new) }
    ensures ready { OnOk result (IsReady search.now member.new) }
    ensures team { IsSameMember member.old member.new }
{
    match member.snapshot.marker(from, number, findings(search)) {
        Err(_) => Err(StepRefusal::Bad(BadKind::StrangeMarker)),
        Ok(marked) => {
            if marked.first {
                return Ok(begin_here(search, member, number, marked.whole, outs)?);
            }
            Ok(judge_or_report(search, member, marked.whole, outs)?)
        }
    }
}

/// Takes a report.
pub(crate) fn take_report<H: Heuristic>(
    search: &Search<H>,
    member: &mut Member,
    from: Agent,
    found: Findings,
    outs: &mut Outs,
) -> Result<(), StepRefusal>
    requires ready { IsReady search.now member.old }
    requires another { IsAnother member.old.snapshot from }
    ensures step { IsTaken result (took_report (record_of search.now member.old) from found)
        outs.old outs.new (record_of search.now member.old) (record_of search.now member.new) }
    ensures ready { OnOk result (IsReady search.now member.new) }
    ensures team { IsSameMember member.old member.new }
{
    match member.snapshot.report(from, found) {
        Err(_) => Err(StepRefusal::Bad(BadKind::StrangeReport)),
        Ok(()) => Ok(judge(search, member, outs)?),
    }
}
