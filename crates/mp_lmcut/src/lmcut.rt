//! The heuristic.

ghost use Rattle.std.specs.Prelude.{◌≡◌, ◌+◌, ◌≤◌, All, IfOk, length};
ghost use Rattle.std.proofs.Props.{props};
ghost use Rattle.mp_relaxed.specs.Memo.{IsRight, value_in};
ghost use Rattle.mp_relaxed.specs.Relaxed.{RelaxedProblem};
ghost use Rattle.mp_lmcut.specs.Cut.{lmcut_of};
ghost use Rattle.mp_lmcut.specs.Sides.{AreAdders, costless, repriced};

use crate::rounds::value_of;
use crate::sides::Sides;
use mp_list::{List, OutOfMemory};
use mp_relaxed::{Memo, Relaxed, Search};
use mp_sets::Bits;
use mp_task::{Heuristic, Task};
use std::alloc::Global;

/// The heuristic LM-cut (Helmert and Domshlak 2009): what the cuts of its rounds cost together, each round at the costs
/// that the one before has left. None where a goal cannot be made true. It keeps its arrays from call to call, so that
/// a value takes memory only where a queue or a list grows, and the values that were asked for.
pub struct Cut {
    problem: Relaxed,
    costs: Vec<u64>,
    adders: Vec<List<u32>>,
    search: Search,
    sides: Sides,
    memo: Memo,
    ghost priced: { length costs.items ≡ length problem.operators },
    ghost cheap: { All (λ c. c ≤ 16000000) costs.items },
    ghost added: { AreAdders problem.operators problem.facts adders.items },
    ghost counted: { search.operators ≡ length problem.operators },
    ghost sized: { length search.numbers ≡ problem.facts },
    ghost public_sized: { memo.publics ≡ problem.publics },
    ghost private_sized: { problem.publics + memo.privates ≡ problem.facts },
    ghost right: { All (IsRight (value_in lmcut_of (repriced costs.items problem))) memo.entries } by { Prim.hlevel props },
}

impl Drop for Cut {
    fn drop(self) {
        let Cut {
            problem: _,
            costs: _,
            adders: _,
            search: _,
            sides: _,
            memo: _,
        } = self;
    }
}

/// Sets the costs of a problem to these, one for each operator.
fn set_back(problem: &mut Relaxed, costs: &[u64])
    requires each { length costs.now ≡ length problem.old.operators }
    requires cheap { All (λ c. c ≤ 16000000) costs.now }
    ensures { problem.new ≡ repriced costs.now problem.old }
{
    problem.price(costs);
}

/// The value of a state, from the problem at these costs.
fn estimate(
    problem: &mut Relaxed,
    costs: &[u64],
    adders: &[List<u32>],
    search: &mut Search,
    sides: &mut Sides,
    publics: &Bits,
    privates: &Bits,
) -> Result<Option<u64>, OutOfMemory>
    requires each { length costs.now ≡ length problem.old.operators }
    requires cheap { All (λ c. c ≤ 16000000) costs.now }
    requires counted { search.old.operators ≡ length problem.old.operators }
    requires sized { length search.old.numbers ≡ problem.old.facts }
    requires adders { AreAdders problem.old.operators problem.old.facts adders.now }
    requires publics { publics.now.size ≡ problem.old.publics }
    requires privates { problem.old.publics + privates.now.size ≡ problem.old.facts }
    ensures found { IfOk result (λ found. found
        ≡ value_in lmcut_of (repriced costs.now problem.old) publics.now.members privates.now.members) }
    ensures kept { costless problem.new ≡ costless problem.old }
    ensures counted { search.new.operators ≡ search.old.operators }
    ensures sized { length search.new.numbers ≡ length search.old.numbers }
{
    set_back(problem, costs);
    let found = value_of(problem, adders, search, sides, publics, privates)?;
    Ok(found)
}

/// The value of a state: 0 without goals, the one that is kept, if there is one, or else from the problem at these costs.
fn recall_or_estimate(
    problem: &mut Relaxed,
    costs: &[u64],
    adders: &[List<u32>],
    search: &mut Search,
    sides: &mut Sides,
    memo: &mut Memo,
    publics: &Bits,
    privates: &Bits,
) -> Result<Option<u64>, OutOfMemory>
    requires each { length costs.now ≡ length problem.old.operators }
    requires cheap { All (λ c. c ≤ 16000000) costs.now }
    requires counted { search.old.operators ≡ length problem.old.operators }
    requires sized { length search.old.numbers ≡ problem.old.facts }
    requires adders { AreAdders problem.old.operators problem.old.facts adders.now }
    requires publics { publics.now.size ≡ problem.old.publics }
    requires privates { problem.old.publics + privates.now.size ≡ problem.old.facts }
    requires public_sized { memo.old.publics ≡ problem.old.publics }
    requires private_sized { problem.old.publics + memo.old.privates ≡ problem.old.facts }
    requires right { All (IsRight (value_in lmcut_of (repriced costs.now problem.old))) memo.old.entries }
    ensures found { IfOk result (λ found. found
        ≡ value_in lmcut_of (repriced costs.now problem.old) publics.now.members privates.now.members) }
    ensures kept { costless problem.new ≡ costless problem.old }
    ensures counted { search.new.operators ≡ search.old.operators }
    ensures sized { length search.new.numbers ≡ length search.old.numbers }
    ensures publics { memo.new.publics ≡ memo.old.publics }
    ensures privates { memo.new.privates ≡ memo.old.privates }
    ensures right { All (IsRight (value_in lmcut_of (repriced costs.now problem.old))) memo.new.entries }
{
    if problem.goals().is_empty() {
        return Ok(Some(0));
    }
    if let Some(found) = memo.recall(publics, privates) {
        return Ok(found);
    }
    let found = estimate(problem, costs, adders, search, sides, publics, privates)?;
    memo.remember(publics, privates, found)?;
    Ok(found)
}

impl Heuristic for Cut {
    ghost use Rattle.mp_task.specs.Limits.{IsWithinLimits};
    ghost use Rattle.mp_relaxed.specs.Dominated.{IsEquivalent};
    ghost use Rattle.mp_relaxed.specs.Relaxed.{delete_relaxation};
    ghost use Rattle.mp_lmcut.specs.Cut.{lmcut};
    ghost use Rattle.mp_lmcut.specs.Laws.Rounds.{lmcut_is_admissible, lmcut_is_dead, lmcut_is_small};

    ghost is_for = { λ h t. IsEquivalent (repriced h.costs.items h.problem) (delete_relaxation t) × IsWithinLimits t };

    ghost value = { lmcut };

    fn make(alloc: Global, task: &Task) -> Result<Cut, OutOfMemory> {
        let problem = Relaxed::reduced(alloc, task)?;
        let costs = problem.costs(alloc)?;
        let adders = problem.adders(alloc)?;
        let search = Search::new(alloc, &problem)?;
        let memo = Memo::new(alloc, problem.publics(), task.privates);
        let _ = problem.operators();
        Ok(Cut {
            problem,
            costs,
            adders,
            search,
            sides: Sides::new(alloc),
            memo,
        })
    }

    fn value(&mut self, publics: &Bits, privates: &Bits) -> Result<Option<u64>, OutOfMemory> {
        recall_or_estimate(
            &mut self.problem,
            self.costs.as_slice(),
            self.adders.as_slice(),
            &mut self.search,
            &mut self.sides,
            &mut self.memo,
            publics,
            privates,
        )
    }

    ghost small = { lmcut_is_small };

    ghost dead = { λ t p q _ e plan. lmcut_is_dead t p q plan e };

    ghost admissible = { λ t p q _ plan. lmcut_is_admissible t p q plan };
}
