//! The rounds of the heuristic.

ghost use Rattle.std.specs.Prelude.{◌≡◌, ◌+◌, ◌<◌, ◌≤◌, ℕ, suc, All, IfOk, IfSome, OnOk, Some, length, option_map};
ghost use Rattle.std.specs.Option.{option_map_or};
ghost use Rattle.mp_estimates.specs.Lowering.{value_at};
ghost use Rattle.mp_relaxed.specs.Relaxed.{AreCheaper, state_of};
ghost use Rattle.mp_relaxed.specs.Search.{AreValues};
ghost use Rattle.mp_relaxed.specs.Values.{fact_values, greatest};
ghost use Rattle.mp_lmcut.specs.Cut.{cut_cost, cuts, is_positive, lmcut_of, lowered};
ghost use Rattle.mp_lmcut.specs.Sides.{AreAdders, costless};

use crate::costs::{list_cut, pay};
use crate::sides::Sides;
use crate::zone::mark_zone;
use mp_list::{List, OutOfMemory};
use mp_relaxed::{Relaxed, Search};
use mp_sets::Bits;

/// Whether something is left to be paid.
fn is_left(cost: Option<u64>) -> bool
    ensures { result ≡ is_positive cost }
{
    match cost {
        Some(n) => 0 < n,
        None => false,
    }
}

/// Makes the operators of the cut cheaper by what the cut costs, and says how much that is; the cut is listed. Refuses only
/// for want of memory.
fn lower(
    problem: &mut Relaxed,
    numbers: &[u64],
    adders: &[List<u32>],
    most: u64,
    sides: &mut Sides,
    publics: &Bits,
    privates: &Bits,
) -> Result<u64, OutOfMemory>
    requires paid { greatest (value_at numbers.now) problem.old.goals ≡ Some most }
    requires some { 1 ≤ most }
    requires values { AreValues problem.old publics.now.members privates.now.members numbers.now }
    requires sized { length numbers.now ≡ problem.old.facts }
    requires adders { AreAdders problem.old.operators problem.old.facts adders.now }
    requires publics { publics.now.size ≡ problem.old.publics }
    requires privates { problem.old.publics + privates.now.size ≡ problem.old.facts }
    ensures cost { IfOk result (λ cost. cost ≡ cut_cost
        (fact_values problem.old.operators (state_of problem.old publics.now.members privates.now.members))
        problem.old.operators problem.old.goals
        (state_of problem.old publics.now.members privates.now.members)) }
    ensures lowered { OnOk result (problem.new ≡ record problem.old {
      operators = lowered
          (fact_values problem.old.operators (state_of problem.old publics.now.members privates.now.members))
          problem.old.operators problem.old.goals
          (state_of problem.old publics.now.members privates.now.members);
    }) }
    ensures small { IfOk result (λ cost. cost ≤ 16000000) }
    ensures listed { OnOk result
        (AreCheaper problem.old.operators problem.new.operators sides.new.cut.items) }
    ensures below { OnOk result (All (λ k. k < length problem.new.operators) sides.new.cut.items) }
    ensures kept { costless problem.new ≡ costless problem.old }
{
    mark_zone(problem, numbers, adders, &mut sides.zone, &mut sides.inside)?;
    list_cut(
        problem,
        numbers,
        adders,
        &sides.zone,
        most,
        sides.inside.as_slice(),
        &mut sides.asked,
        &mut sides.near,
        &mut sides.cut,
        &mut sides.costs,
    )?;
    let _ = problem.operators();
    Ok(pay(problem, sides.cut.as_slice(), sides.costs.as_slice()))
}

/// Plays a round on the values of facts: where the goals cost something, it makes the operators of the cut cheaper by what
/// the cut costs, finds the values again at these costs, and says how much it is. Refuses only for want of memory.
fn round(
    problem: &mut Relaxed,
    adders: &[List<u32>],
    search: &mut Search,
    sides: &mut Sides,
    publics: &Bits,
    privates: &Bits,
) -> Result<Option<u64>, OutOfMemory>
    requires counted { search.old.operators ≡ length problem.old.operators }
    requires sized { length search.old.numbers ≡ problem.old.facts }
    requires values { AreValues problem.old publics.now.members privates.now.members search.old.numbers }
    requires adders { AreAdders problem.old.operators problem.old.facts adders.now }
    requires publics { publics.now.size ≡ problem.old.publics }
    requires privates { problem.old.publics + privates.now.size ≡ problem.old.facts }
    ensures paid { IfOk result (λ paid. (rounds : ℕ)
        → cuts (suc rounds) problem.old.operators problem.old.goals
        (state_of problem.old publics.now.members privates.now.members)
        ≡ option_map_or (λ cost. cost + cuts rounds problem.new.operators problem.new.goals
        (state_of problem.new publics.now.members privates.now.members)) paid 0) }
    ensures values { OnOk result
        (AreValues problem.new publics.now.members privates.now.members search.new.numbers) }
    ensures small { IfOk result (λ paid. IfSome paid (λ cost. cost ≤ 16000000)) }
    ensures kept { costless problem.new ≡ costless problem.old }
    ensures counted { search.new.operators ≡ search.old.operators }
    ensures sized { length search.new.numbers ≡ length search.old.numbers }
{
    let value = search.greatest(problem.goals());
    if !is_left(value) {
        return Ok(None);
    }
    let most = value.unwrap_or(0);
    let cost = lower(
        problem,
        search.numbers(),
        adders,
        most,
        sides,
        publics,
        privates,
    )?;
    search.again(problem, sides.cut.as_slice())?;
    Ok(Some(cost))
}

/// Plays rounds, the first one on the values that were found, until the goals cost nothing, at most as many as there are
/// operators, and says what their cuts cost together. Refuses only for want of memory.
fn play(
    problem: &mut Relaxed,
    adders: &[List<u32>],
    search: &mut Search,
    sides: &mut Sides,
    publics: &Bits,
    privates: &Bits,
) -> Result<u64, OutOfMemory>
    requires counted { search.old.operators ≡ length problem.old.operators }
    requires sized { length search.old.numbers ≡ problem.old.facts }
    requires values { AreValues problem.old publics.now.members privates.now.members search.old.numbers }
    requires adders { AreAdders problem.old.operators problem.old.facts adders.now }
    requires publics { publics.now.size ≡ problem.old.publics }
    requires privates { problem.old.publics + privates.now.size ≡ problem.old.facts }
    ensures total { IfOk result (λ total. total
        ≡ cuts (length problem.old.operators) problem.old.operators problem.old.goals
        (state_of problem.old publics.now.members privates.now.members)) }
    ensures kept { costless problem.new ≡ costless problem.old }
    ensures counted { search.new.operators ≡ search.old.operators }
    ensures sized { length search.new.numbers ≡ length search.old.numbers }
{
    let mut total = 0;
    for _ in 0..problem.operators() {
        let Some(cost) = round(problem, adders, search, sides, publics, privates)? else {
            return Ok(total);
        };
        total += cost;
    }
    Ok(total)
}

/// A total, where something was found.
fn with_total(found: Option<u64>, total: u64) -> Option<u64>
    ensures { result ≡ option_map (λ _. total) found }
{
    match found {
        Some(_) => Some(total),
        None => None,
    }
}

/// The value of a state for a problem, whose costs it takes. Refuses only for want of memory.
pub(crate) fn value_of(
    problem: &mut Relaxed,
    adders: &[List<u32>],
    search: &mut Search,
    sides: &mut Sides,
    publics: &Bits,
    privates: &Bits,
) -> Result<Option<u64>, OutOfMemory>
    requires counted { search.old.operators ≡ length problem.old.operators }
    requires sized { length search.old.numbers ≡ problem.old.facts }
    requires adders { AreAdders problem.old.operators problem.old.facts adders.now }
    requires publics { publics.now.size ≡ problem.old.publics }
    requires privates { problem.old.publics + privates.now.size ≡ problem.old.facts }
    ensures found { IfOk result (λ found. found ≡ lmcut_of problem.old.operators problem.old.goals
        (state_of problem.old publics.now.members privates.now.members)) }
    ensures kept { costless problem.new ≡ costless problem.old }
    ensures counted { search.new.operators ≡ search.old.operators }
    ensures sized { length search.new.numbers ≡ length search.old.numbers }
{
    search.find(problem, publics, privates)?;
    let found = search.greatest(problem.goals());
    let total = play(problem, adders, search, sides, publics, privates)?;
    Ok(with_total(found, total))
}
