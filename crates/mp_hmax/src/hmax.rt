//! The heuristic.

ghost use Rattle.std.specs.Prelude.{◌≡◌, ◌+◌, All, length, IfOk};
ghost use Rattle.std.proofs.Props.{props};
ghost use Rattle.mp_relaxed.specs.Memo.{IsRight, value_in};
ghost use Rattle.mp_hmax.specs.Hmax.{hmax, hmax_of};

use mp_list::OutOfMemory;
use mp_relaxed::{Memo, Relaxed, Search};
use mp_sets::Bits;
use mp_task::{Heuristic, Task};
use std::alloc::Global;

/// The heuristic hmax (Bonet and Geffner 2001): what it costs to make the dearest goal true, where nothing becomes
/// false, and where of an operator's preconditions the dearest alone is paid for. None where a goal cannot be made
/// true. It keeps its arrays from call to call, so that a value takes memory only where its queue grows, and the values that
/// were asked for.
pub struct Hmax {
    problem: Relaxed,
    search: Search,
    memo: Memo,
    ghost counted: { search.operators ≡ length problem.operators },
    ghost sized: { length search.numbers ≡ problem.facts },
    ghost public_sized: { memo.publics ≡ problem.publics },
    ghost private_sized: { problem.publics + memo.privates ≡ problem.facts },
    ghost right: { All (IsRight (value_in hmax_of problem)) memo.entries } by { Prim.hlevel props },
}

impl Drop for Hmax {
    fn drop(self) {
        let Hmax {
            problem: _,
            search: _,
            memo: _,
        } = self;
    }
}

/// The value of a state.
fn estimate(
    problem: &Relaxed,
    search: &mut Search,
    publics: &Bits,
    privates: &Bits,
) -> Result<Option<u64>, OutOfMemory>
    requires counted { search.old.operators ≡ length problem.now.operators }
    requires sized { length search.old.numbers ≡ problem.now.facts }
    requires publics { publics.now.size ≡ problem.now.publics }
    requires privates { problem.now.publics + privates.now.size ≡ problem.now.facts }
    ensures found { IfOk result (λ found. found
        ≡ value_in hmax_of problem.now publics.now.members privates.now.members) }
    ensures counted { search.new.operators ≡ search.old.operators }
    ensures sized { length search.new.numbers ≡ length search.old.numbers }
{
    let found = search.find_greatest(problem, publics, privates, problem.goals())?;
    Ok(found)
}

/// The value of a state: 0 without goals, the one that is kept, if there is one, or else from the problem.
fn recall_or_estimate(
    problem: &Relaxed,
    search: &mut Search,
    memo: &mut Memo,
    publics: &Bits,
    privates: &Bits,
) -> Result<Option<u64>, OutOfMemory>
    requires counted { search.old.operators ≡ length problem.now.operators }
    requires sized { length search.old.numbers ≡ problem.now.facts }
    requires publics { publics.now.size ≡ problem.now.publics }
    requires privates { problem.now.publics + privates.now.size ≡ problem.now.facts }
    requires public_sized { memo.old.publics ≡ problem.now.publics }
    requires private_sized { problem.now.publics + memo.old.privates ≡ problem.now.facts }
    requires right { All (IsRight (value_in hmax_of problem.now)) memo.old.entries }
    ensures found { IfOk result (λ found. found
        ≡ value_in hmax_of problem.now publics.now.members privates.now.members) }
    ensures counted { search.new.operators ≡ search.old.operators }
    ensures sized { length search.new.numbers ≡ length search.old.numbers }
    ensures publics { memo.new.publics ≡ memo.old.publics }
    ensures privates { memo.new.privates ≡ memo.old.privates }
    ensures right { All (IsRight (value_in hmax_of problem.now)) memo.new.entries }
{
    if problem.goals().is_empty() {
        return Ok(Some(0));
    }
    if let Some(found) = memo.recall(publics, privates) {
        return Ok(found);
    }
    let found = estimate(problem, search, publics, privates)?;
    memo.remember(publics, privates, found)?;
    Ok(found)
}

impl Heuristic for Hmax {
    ghost use Rattle.mp_task.specs.Limits.{IsWithinLimits};
    ghost use Rattle.mp_relaxed.specs.Dominated.{IsEquivalent};
    ghost use Rattle.mp_relaxed.specs.Relaxed.{delete_relaxation};
    ghost use Rattle.mp_hmax.specs.Laws.Bounds.{hmax_is_admissible, hmax_is_dead, hmax_is_small};

    ghost is_for = { λ h t. IsEquivalent h.problem (delete_relaxation t) × IsWithinLimits t };

    ghost value = { hmax };

    fn make(alloc: Global, task: &Task) -> Result<Hmax, OutOfMemory> {
        let problem = Relaxed::reduced(alloc, task)?;
        let search = Search::new(alloc, &problem)?;
        let memo = Memo::new(alloc, problem.publics(), task.privates);
        Ok(Hmax {
            problem,
            search,
            memo,
        })
    }

    fn value(&mut self, publics: &Bits, privates: &Bits) -> Result<Option<u64>, OutOfMemory> {
        recall_or_estimate(
            &self.problem,
            &mut self.search,
            &mut self.memo,
            publics,
            privates,
        )
    }

    ghost small = { hmax_is_small };

    ghost dead = { λ t p q _ e plan. hmax_is_dead t p q plan e };

    ghost admissible = { λ t p q _ plan. hmax_is_admissible t p q plan };
}
