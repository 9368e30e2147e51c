//! What the agents of a team find that search until all have ended, whoever lets them.

ghost use Rattle.std.specs.Prelude.{◌≡◌, ◌≤◌, length, IfOk, IfErr, OnOk};
ghost use Rattle.mp_solutions.specs.Solution.{IsFoundOn};
ghost use Rattle.mp_solve.specs.Refused.{AreWithin};
ghost use Rattle.mp_split.specs.Team.{IsFirstRefusal};
ghost use Rattle.mp_top.specs.Asked.{values_of};
ghost use Rattle.mp_top.specs.Finding.{ComesOfSearch, WhereItMaySearch};
ghost use Rattle.mp_world.specs.Team.{most_expansions};

use crate::decision::Search;
use crate::searching::searched;
use mp_grounder::GroundRefusal;
use mp_solve::Solution;
use mp_typing::CheckedFactor;
use std::alloc::Global;

/// Who searches for a request.
#[derive(Clone, Copy)]
pub(crate) struct Workers {
    /// How many workers there are, where that is said.
    pub(crate) count: Option<u64>,
    /// Whether all is done on one thread.
    pub(crate) one: bool,
}

/// What the agents of a team find by taking turns on the calling thread, whoever is asked to search.
pub(crate) fn in_turn(
    alloc: Global,
    team: &[CheckedFactor],
    search: Search,
    workers: Workers,
) -> Result<Solution, GroundRefusal>
    requires from_1 { 1 ≤ search.limit }
    requires limit { search.limit ≤ most_expansions }
    requires some { 1 ≤ length team.now }
    requires at_most { length team.now ≤ 16 }
    ensures { ComesOfSearch team.now search workers result }
{
    let _ = workers;
    searched(alloc, team, search)
}

/// What they find as `find` lets them search.
pub(crate) fn found<F: Fn(&[CheckedFactor], Search, Workers) -> Result<Solution, GroundRefusal>>(
    find: &F,
    team: &[CheckedFactor],
    search: Search,
    workers: Workers,
) -> Result<Solution, GroundRefusal>
    requires from_1 { 1 ≤ search.limit }
    requires limit { search.limit ≤ most_expansions }
    requires some { 1 ≤ length team.now }
    requires at_most { length team.now ≤ 16 }
    requires callable { (t : _) (s : _) (w : _) → WhereItMaySearch t.now s (F.pre find.now t s w) }
    requires found { (t : _) (s : _) (w : _) (r : _) → F.post find.now t s w r
        → IfOk r (IsFoundOn (values_of s.heuristic) s.limit t.now w.one) }
    requires within { (t : _) (s : _) (w : _) (r : _) → F.post find.now t s w r → OnOk r (AreWithin t.now) }
    requires refused { (t : _) (s : _) (w : _) (r : _) → F.post find.now t s w r → IfErr r (IsFirstRefusal t.now) }
    ensures found { IfOk result (IsFoundOn (values_of search.heuristic) search.limit team.now workers.one) }
    ensures within { OnOk result (AreWithin team.now) }
    ensures refused { IfErr result (IsFirstRefusal team.now) }
{
    find(team, search, workers)
}
