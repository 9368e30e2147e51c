//! The cut of a round: which operators are in it, what it costs, and what they cost afterwards.

ghost use Rattle.std.specs.Prelude.{◌≡◌, ◌<◌, ◌≤◌, ◌-◌, ◌==◌, ◌++◌, ◌∷◌, [], ℕ, All, Contains, OnOk, Some, false, length, map, true};
ghost use Rattle.std.specs.List.{list_any};
ghost use Rattle.std.specs.Option.{unwrap_or};
ghost use Rattle.mp_sets.specs.Numbers.{Numbers};
ghost use Rattle.mp_estimates.specs.Estimates.{lesser};
ghost use Rattle.mp_relaxed.specs.Relaxed.{operator_at, with_cheaper};
ghost use Rattle.mp_estimates.specs.Lowering.{value_at};
ghost use Rattle.mp_lmcut.specs.Cut.{in_cut, in_zone, least};
ghost use Rattle.mp_lmcut.specs.Sides.{AreAdders, AreListed, AreNearFacts, AreNoted, AreValuesFor, HasZone, HaveNoted, IsZone, lowered_at};

use crate::marks::Marks;
use crate::near::has_near_edge;
use mp_list::{List, OutOfMemory};
use mp_relaxed::Relaxed;

/// The lesser one of a cost, if there is one, and another.
fn lesser_of(known: Option<u64>, cost: u64) -> u64
    ensures { Some result ≡ lesser known (Some cost) }
{
    match known {
        None => cost,
        Some(n) => n.min(cost),
    }
}

/// Puts an operator and its cost at the ends of two lists where it was found.
fn put(
    problem: &Relaxed,
    found: bool,
    k: u32,
    cut: &mut Vec<u32>,
    costs: &mut Vec<u64>,
) -> Result<(), OutOfMemory>
    requires operator { k < length problem.now.operators }
    ensures inside { found ≡ true → OnOk result ((cut.new.items ≡ cut.old.items ++ k ∷ [])
        × (costs.new.items ≡ costs.old.items ++ (operator_at problem.now.operators k).cost ∷ [])) }
    ensures outside { found ≡ false
        → OnOk result ((cut.new.items ≡ cut.old.items) × (costs.new.items ≡ costs.old.items)) }
{
    if found {
        cut.push(k)?;
        costs.push(problem.cost(k))?;
    }
    Ok(())
}

/// Puts an operator that adds a fact of the zone, and its cost, at the ends of two lists where it is in the cut. One without a
/// cost is in no cut.
fn note(
    problem: &Relaxed,
    numbers: &[u64],
    adders: &[List<u32>],
    zone: &Marks,
    most: u64,
    k: u32,
    asked: &mut Marks,
    near: &mut Marks,
    cut: &mut Vec<u32>,
    costs: &mut Vec<u64>,
) -> Result<(), OutOfMemory>
    requires operator { k < length problem.now.operators }
    requires enters { list_any (in_zone (value_at numbers.now) problem.now.operators problem.now.goals)
        (operator_at problem.now.operators k).add ≡ true }
    requires adders { AreAdders problem.now.operators problem.now.facts adders.now }
    requires sized { length numbers.now ≡ problem.now.facts }
    requires len { length zone.now.flags ≡ problem.now.facts }
    requires zone { IsZone (value_at numbers.now) problem.now.operators problem.now.goals
        zone.now.flags }
    requires near { length near.old.flags ≡ problem.now.facts }
    requires marks { AreNearFacts (value_at numbers.now) problem.now.operators problem.now.goals most
        near.old.flags }
    ensures noted { OnOk result ((s : Numbers)
        → AreValuesFor (value_at numbers.now) problem.now.operators problem.now.goals most s
        → HaveNoted (in_cut (value_at numbers.now) problem.now.operators problem.now.goals s) problem.now.operators
        cut.old.items costs.old.items cut.new.items costs.new.items) }
    ensures here { OnOk result ((s : Numbers)
        → AreValuesFor (value_at numbers.now) problem.now.operators problem.now.goals most s
        → in_cut (value_at numbers.now) problem.now.operators problem.now.goals s
        (operator_at problem.now.operators k) ≡ true → Contains cut.new.items k) }
    ensures near { OnOk result (length near.new.flags ≡ problem.now.facts) }
    ensures marks { OnOk result (AreNearFacts (value_at numbers.now) problem.now.operators problem.now.goals most
        near.new.flags) }
{
    if problem.cost(k) == 0 {
        return Ok(());
    }
    let found = has_near_edge(problem, numbers, adders, zone, most, k, asked, near)?;
    put(problem, found, k, cut, costs)?;
    Ok(())
}

/// Lists those of some operators that are in the cut, with their costs. Each of them adds a fact of the zone.
fn note_each(
    problem: &Relaxed,
    numbers: &[u64],
    adders: &[List<u32>],
    zone: &Marks,
    most: u64,
    operators: &[u32],
    asked: &mut Marks,
    near: &mut Marks,
    cut: &mut Vec<u32>,
    costs: &mut Vec<u64>,
) -> Result<(), OutOfMemory>
    requires operators { All (λ k. k < length problem.now.operators) operators.now }
    requires enter { All (λ k. list_any
        (in_zone (value_at numbers.now) problem.now.operators problem.now.goals)
        (operator_at problem.now.operators k).add ≡ true) operators.now }
    requires adders { AreAdders problem.now.operators problem.now.facts adders.now }
    requires sized { length numbers.now ≡ problem.now.facts }
    requires len { length zone.now.flags ≡ problem.now.facts }
    requires zone { IsZone (value_at numbers.now) problem.now.operators problem.now.goals
        zone.now.flags }
    requires near { length near.old.flags ≡ problem.now.facts }
    requires marks { AreNearFacts (value_at numbers.now) problem.now.operators problem.now.goals most
        near.old.flags }
    ensures noted { OnOk result ((s : Numbers)
        → AreValuesFor (value_at numbers.now) problem.now.operators problem.now.goals most s
        → HaveNoted (in_cut (value_at numbers.now) problem.now.operators problem.now.goals s) problem.now.operators
        cut.old.items costs.old.items cut.new.items costs.new.items) }
    ensures each { OnOk result ((s : Numbers)
        → AreValuesFor (value_at numbers.now) problem.now.operators problem.now.goals most s
        → (k : ℕ) → Contains operators.now k
        → in_cut (value_at numbers.now) problem.now.operators problem.now.goals s
        (operator_at problem.now.operators k) ≡ true → Contains cut.new.items k) }
    ensures near { OnOk result (length near.new.flags ≡ problem.now.facts) }
    ensures marks { OnOk result (AreNearFacts (value_at numbers.now) problem.now.operators problem.now.goals most
        near.new.flags) }
{
    for k in operators {
        note(
            problem, numbers, adders, zone, most, *k, asked, near, cut, costs,
        )?;
    }
    Ok(())
}

/// Lists those of the operators that add a fact of the zone that are in the cut, with their costs.
fn note_adders(
    problem: &Relaxed,
    numbers: &[u64],
    adders: &[List<u32>],
    zone: &Marks,
    most: u64,
    x: u32,
    asked: &mut Marks,
    near: &mut Marks,
    cut: &mut Vec<u32>,
    costs: &mut Vec<u64>,
) -> Result<(), OutOfMemory>
    requires fact { x < problem.now.facts }
    requires inside { in_zone (value_at numbers.now) problem.now.operators problem.now.goals x ≡ true }
    requires adders { AreAdders problem.now.operators problem.now.facts adders.now }
    requires sized { length numbers.now ≡ problem.now.facts }
    requires len { length zone.now.flags ≡ problem.now.facts }
    requires zone { IsZone (value_at numbers.now) problem.now.operators problem.now.goals
        zone.now.flags }
    requires near { length near.old.flags ≡ problem.now.facts }
    requires marks { AreNearFacts (value_at numbers.now) problem.now.operators problem.now.goals most
        near.old.flags }
    ensures noted { OnOk result ((s : Numbers)
        → AreValuesFor (value_at numbers.now) problem.now.operators problem.now.goals most s
        → HaveNoted (in_cut (value_at numbers.now) problem.now.operators problem.now.goals s) problem.now.operators
        cut.old.items costs.old.items cut.new.items costs.new.items) }
    ensures each { OnOk result ((s : Numbers)
        → AreValuesFor (value_at numbers.now) problem.now.operators problem.now.goals most s
        → AreNoted (in_cut (value_at numbers.now) problem.now.operators problem.now.goals s)
        problem.now.operators x cut.new.items) }
    ensures near { OnOk result (length near.new.flags ≡ problem.now.facts) }
    ensures marks { OnOk result (AreNearFacts (value_at numbers.now) problem.now.operators problem.now.goals most
        near.new.flags) }
{
    let row = adders[x as usize].as_slice();
    note_each(
        problem, numbers, adders, zone, most, row, asked, near, cut, costs,
    )?;
    Ok(())
}

/// Empties the two lists of a cut.
fn empty(cut: &mut Vec<u32>, costs: &mut Vec<u64>)
    ensures cut { cut.new.items ≡ [] }
    ensures costs { costs.new.items ≡ [] }
{
    cut.clear();
    costs.clear();
}

/// Lists the operators of the cut, and what each costs: each of them adds a fact of the zone, so that no other operator is
/// looked at. One that adds several of its facts stands there more than once. Refuses only for want of memory.
pub(crate) fn list_cut(
    problem: &Relaxed,
    numbers: &[u64],
    adders: &[List<u32>],
    zone: &Marks,
    most: u64,
    inside: &[u32],
    asked: &mut Marks,
    near: &mut Marks,
    cut: &mut Vec<u32>,
    costs: &mut Vec<u64>,
) -> Result<(), OutOfMemory>
    requires adders { AreAdders problem.now.operators problem.now.facts adders.now }
    requires sized { length numbers.now ≡ problem.now.facts }
    requires len { length zone.now.flags ≡ problem.now.facts }
    requires zone { IsZone (value_at numbers.now) problem.now.operators problem.now.goals
        zone.now.flags }
    requires inside { HasZone (value_at numbers.now) problem.now.operators problem.now.goals
        problem.now.facts inside.now }
    ensures listed { OnOk result ((s : Numbers)
        → AreValuesFor (value_at numbers.now) problem.now.operators problem.now.goals most s
        → AreListed (in_cut (value_at numbers.now) problem.now.operators problem.now.goals s)
        problem.now.operators cut.new.items costs.new.items) }
    ensures all { OnOk result ((s : Numbers)
        → AreValuesFor (value_at numbers.now) problem.now.operators problem.now.goals most s
        → (k : ℕ) → k < length problem.now.operators
        → in_cut (value_at numbers.now) problem.now.operators problem.now.goals s
        (operator_at problem.now.operators k) ≡ true → Contains cut.new.items k) }
{
    near.begin(problem.facts())?;
    empty(cut, costs);
    for x in inside {
        note_adders(
            problem, numbers, adders, zone, most, *x, asked, near, cut, costs,
        )?;
    }
    Ok(())
}

/// The least of some costs.
fn least_of(costs: &[u64]) -> Option<u64>
    ensures { result ≡ least costs.now }
{
    let mut known = None;
    for cost in costs {
        known = Some(lesser_of(known, *cost));
    }
    known
}

/// Gives an operator a cost that is at most its own.
fn set_cost(problem: &mut Relaxed, k: u32, cost: u64)
    requires operator { k < length problem.old.operators }
    requires enough { cost ≤ (operator_at problem.old.operators k).cost }
    ensures { problem.new ≡ record problem.old {
      operators = with_cheaper k ((operator_at problem.old.operators k).cost - cost) problem.old.operators;
    } }
{
    let by = problem.cost(k) - cost;
    problem.lower(k, by);
}

/// Makes the listed operators cheaper. One that is listed once more gets the cost again that it has by then.
fn lower_all(problem: &mut Relaxed, cut: &[u32], costs: &[u64], by: u64)
    requires operators { All (λ k. k < length problem.old.operators) cut.now }
    requires costs { costs.now ≡ map (λ k. (operator_at problem.old.operators k).cost) cut.now }
    requires enough { All (λ cost. by ≤ cost) costs.now }
    ensures { problem.new ≡ record problem.old {
      operators = lowered_at
          (λ k. list_any (λ j. j == k) cut.now) by problem.old.operators;
    } }
{
    for i in 0..cut.len() {
        set_cost(problem, cut[i], costs[i] - by);
    }
}

/// Makes the listed operators cheaper by what the cheapest of them costs, and says how much that is.
pub(crate) fn pay(problem: &mut Relaxed, cut: &[u32], costs: &[u64]) -> u64
    requires operators { All (λ k. k < length problem.old.operators) cut.now }
    requires costs { costs.now ≡ map (λ k. (operator_at problem.old.operators k).cost) cut.now }
    ensures cost { result ≡ unwrap_or (least costs.now) 0 }
    ensures lowered { problem.new ≡ record problem.old {
      operators = lowered_at
          (λ k. list_any (λ j. j == k) cut.now) result problem.old.operators;
    } }
{
    let by = least_of(costs).unwrap_or(0);
    lower_all(problem, cut, costs, by);
    by
}
