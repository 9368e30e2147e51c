//! What a team does that searches, by turns or by the events of a schedule.

ghost use Rattle.std.specs.Prelude.{◌≡◌, ◌≤◌, ◌∷◌, [], length, true, IfOk, IfErr, OnOk};
ghost use Rattle.mp_solutions.specs.Solution.{IsReplayed, IsSolution};
ghost use Rattle.mp_solve.specs.Refused.{AreWithin, Refuses};
ghost use Rattle.mp_split.specs.Team.{IsFirstRefusal};
ghost use Rattle.mp_top.specs.Asked.{values_of};
ghost use Rattle.mp_top.specs.Asked.Work.{replayed as replayed_work};
ghost use Rattle.mp_top.specs.Decided.{IsRefusedTeam, IsTold, ReplaysBy, SolvesFor, refusal_of, searching_by};
ghost use Rattle.mp_top.specs.Finding.{ComesOfSearch, WhereItMaySearch};
ghost use Rattle.mp_top.specs.Outcome.{printed_text};
ghost use Rattle.mp_world.specs.Team.{most_expansions};

use crate::decision::{Decision, Search, status_of_answer, trace_before};
use crate::finding::{Workers, found};
use crate::refusal::{FirstRefusal, Refusal};
use mp_grounder::GroundRefusal;
use mp_hmax::Hmax;
use mp_list::OutOfMemory;
use mp_lmcut::Cut;
use mp_pdb::Pdb;
use mp_solve::{ReplayRefusal, Solution, replay, solve};
use mp_task::Blind;
use mp_typing::CheckedFactor;
use mp_words::Choice;
use std::alloc::Global;

/// What the agents of a team find by taking turns until all have ended.
pub(crate) fn searched(
    alloc: Global,
    team: &[CheckedFactor],
    search: Search,
) -> Result<Solution, GroundRefusal>
    requires from_1 { 1 ≤ search.limit }
    requires limit { search.limit ≤ most_expansions }
    requires some { 1 ≤ length team.now }
    requires at_most { length team.now ≤ 16 }
    ensures solution { IfOk result (IsSolution (values_of search.heuristic) search.limit team.now) }
    ensures within { OnOk result (AreWithin team.now) }
    ensures refused { IfErr result (IsFirstRefusal team.now) }
{
    match search.heuristic {
        Choice::Blind => solve::<Blind>(alloc, team, search.limit),
        Choice::Max => solve::<Hmax>(alloc, team, search.limit),
        Choice::Cut => solve::<Cut>(alloc, team, search.limit),
        Choice::Pdb => solve::<Pdb>(alloc, team, search.limit),
    }
}

/// What they find by the schedule of a text.
fn replayed(
    alloc: Global,
    team: &[CheckedFactor],
    search: Search,
    text: Vec<u8>,
) -> Result<Solution, ReplayRefusal>
    requires from_1 { 1 ≤ search.limit }
    requires limit { search.limit ≤ most_expansions }
    requires some { 1 ≤ length team.now }
    requires at_most { length team.now ≤ 16 }
    ensures replayed { IfOk result (IsReplayed (values_of search.heuristic) search.limit team.now text.items) }
    ensures within { OnOk result (AreWithin team.now) }
    ensures refused { IfErr result (Refuses (values_of search.heuristic) search.limit team.now text.items) }
{
    match search.heuristic {
        Choice::Blind => replay::<Blind>(alloc, team, search.limit, text),
        Choice::Max => replay::<Hmax>(alloc, team, search.limit, text),
        Choice::Cut => replay::<Cut>(alloc, team, search.limit, text),
        Choice::Pdb => replay::<Pdb>(alloc, team, search.limit, text),
    }
}

/// A solution as a decision, with the trace before its text where that is asked for.
fn traced(alloc: Global, solution: Solution, trace: bool) -> Result<Decision, OutOfMemory>
    ensures { IfOk result (IsTold solution (printed_text trace solution.log solution.answer solution.text)) }
{
    let before = trace_before(alloc, &solution.log, solution.answer, trace)?;
    let Solution {
        views,
        log,
        answer,
        text,
    } = solution;
    Ok(Decision {
        views,
        log,
        answer,
        before,
        text,
        status: status_of_answer(answer),
    })
}

/// The decision for a team that searches.
#[tactic(auto, using(mp_split::proofs::FirstAgents::no_memory))]
pub(crate) fn solve_for<
    F: Fn(&[CheckedFactor], Search, Workers) -> Result<Solution, GroundRefusal>,
>(
    alloc: Global,
    team: &[CheckedFactor],
    find: &F,
    search: Search,
    workers: Workers,
    trace: bool,
) -> Result<Decision, GroundRefusal>
    requires from_1 { 1 ≤ search.limit }
    requires limit { search.limit ≤ most_expansions }
    requires some { 1 ≤ length team.now }
    requires at_most { length team.now ≤ 16 }
    requires callable { (t : _) (s : _) (w : _) → WhereItMaySearch t.now s (F.pre find.now t s w) }
    requires finds { (t : _) (s : _) (w : _) (r : _) → F.post find.now t s w r → ComesOfSearch t.now s w r }
    ensures outcome { IfOk result (SolvesFor (searching_by search) workers.one trace team.now) }
    ensures refused { IfErr result (IsFirstRefusal team.now) }
{
    let solution = found(find, team, search, workers)?;
    Ok(traced(alloc, solution, trace)?)
}

/// What is said of a schedule that is not replayed.
fn replay_refused(refusal: ReplayRefusal) -> Refusal
    ensures { result ≡ refusal_of refusal }
{
    match refusal {
        ReplayRefusal::Sizes(refusal) => Refusal::Sizes(refusal),
        ReplayRefusal::Line(number) => Refusal::First(0, FirstRefusal::Line(number)),
    }
}

/// The decision for a team that does the events of the schedule of a text.
pub(crate) fn replay_by(
    alloc: Global,
    team: &[CheckedFactor],
    search: Search,
    text: Vec<u8>,
) -> Result<Decision, Refusal>
    requires from_1 { 1 ≤ search.limit }
    requires limit { search.limit ≤ most_expansions }
    requires some { 1 ≤ length team.now }
    requires at_most { length team.now ≤ 16 }
    ensures outcome { IfOk result (ReplaysBy (searching_by search) text.items team.now) }
    ensures refused { IfErr result (IsRefusedTeam (replayed_work (searching_by search)) team.now (text.items ∷ [])) }
{
    match replayed(alloc, team, search, text) {
        Ok(solution) => Ok(traced(alloc, solution, true)?),
        Err(refusal) => Err(replay_refused(refusal)),
    }
}
