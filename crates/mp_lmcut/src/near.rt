//! The near side: the facts to which edges lead from the state, or from the start, that do not enter the goal zone. It is found
//! out for the supports of operators that add a fact of the zone alone, and backwards: a fact that is cheaper than the goals is
//! near (`proofs/CheapLemmas.antt`), so a search from a dearer one ends at the first such fact.

ghost use Rattle.std.specs.Prelude.{◌≡◌, ◌<◌, ◌||◌, ◌==◌, ℕ, All, IfOk, IfSome, OnOk, false, length, true};
ghost use Rattle.std.specs.List.{list_all, list_any};
ghost use Rattle.std.specs.Option.{option_to_list};
ghost use Rattle.mp_sets.specs.Numbers.{Numbers};
ghost use Rattle.mp_relaxed.specs.Relaxed.{HasAdders, operator_at};
ghost use Rattle.mp_estimates.specs.Lowering.{value_at};
ghost use Rattle.mp_lmcut.specs.Cut.{is_near};
ghost use Rattle.mp_lmcut.specs.Marked.{HasGrown, is_marked};
ghost use Rattle.mp_lmcut.specs.Sides.{AreAdders, AreNearFacts, AreValuesFor, HasSource, IsBehind, IsTraced, IsTracedFrom, IsZone, TracesBack, is_cheap as is_cheap_for, is_from_near, is_source};

use crate::marks::Marks;
use crate::supports::valued_support_of;
use mp_list::{List, OutOfMemory};
use mp_relaxed::Relaxed;

/// Whether a fact is cheaper than the goals.
fn is_cheap(numbers: &[u64], most: u64, x: u32) -> bool
    requires { x < length numbers.now }
    ensures { result ≡ is_cheap_for (value_at numbers.now) most x }
{
    numbers[x as usize] < most
}

/// Asks for a fact, unless it is in the zone.
fn ask_outside(zone: &Marks, x: u32, asked: &mut Marks) -> Result<(), OutOfMemory>
    requires zone { x < length zone.now.flags }
    requires asked { x < length asked.old.flags }
    ensures grown { OnOk result (HasGrown
        (λ y. (y ≡ x) × (is_marked zone.now.flags y ≡ false)) asked.old asked.new) }
    ensures done { OnOk result ((is_marked zone.now.flags x || is_marked asked.new.flags x) ≡ true) }
{
    if !zone.has(x) {
        asked.mark(x)?;
    }
    Ok(())
}

/// Whether a support is cheap; else it is asked for.
fn trace_fact(
    numbers: &[u64],
    zone: &Marks,
    most: u64,
    x: u32,
    asked: &mut Marks,
) -> Result<bool, OutOfMemory>
    requires sized { x < length numbers.now }
    requires zone { x < length zone.now.flags }
    requires asked { x < length asked.old.flags }
    ensures value { IfOk result (λ found. found ≡ is_cheap_for (value_at numbers.now) most x) }
    ensures grown { OnOk result (HasGrown
        (λ y. (y ≡ x) × (is_marked zone.now.flags y ≡ false)
        × (is_cheap_for (value_at numbers.now) most y ≡ false)) asked.old asked.new) }
    ensures done { IfOk result (λ found. found ≡ false
        → (is_marked zone.now.flags x || is_marked asked.new.flags x) ≡ true) }
{
    if is_cheap(numbers, most, x) {
        return Ok(true);
    }
    ask_outside(zone, x, asked)?;
    Ok(false)
}

/// Whether a support is cheap, or there is none; else it is asked for.
fn trace_support(
    numbers: &[u64],
    zone: &Marks,
    most: u64,
    found: Option<u32>,
    asked: &mut Marks,
) -> Result<bool, OutOfMemory>
    requires inside { IfSome found (λ x. x < length numbers.now) }
    requires zone { length zone.now.flags ≡ length numbers.now }
    requires asked { length asked.old.flags ≡ length numbers.now }
    ensures value { IfOk result (λ cheap. cheap
        ≡ list_all (is_cheap_for (value_at numbers.now) most) (option_to_list found)) }
    ensures grown { OnOk result (HasGrown
        (λ y. (list_any (λ x. x == y) (option_to_list found) ≡ true) × (is_marked zone.now.flags y ≡ false)
        × (is_cheap_for (value_at numbers.now) most y ≡ false)) asked.old asked.new) }
    ensures done { IfOk result (λ cheap. cheap ≡ false
        → list_all (λ x. is_marked zone.now.flags x || is_marked asked.new.flags x)
        (option_to_list found) ≡ true) }
{
    match found {
        Some(x) => trace_fact(numbers, zone, most, x, asked),
        None => Ok(true),
    }
}

/// Whether an operator has edges from the start or from a cheap fact; else its support is asked for.
fn trace(
    problem: &Relaxed,
    numbers: &[u64],
    zone: &Marks,
    most: u64,
    k: u32,
    asked: &mut Marks,
) -> Result<bool, OutOfMemory>
    requires operator { k < length problem.now.operators }
    requires sized { length numbers.now ≡ problem.now.facts }
    requires zone { length zone.now.flags ≡ problem.now.facts }
    requires asked { length asked.old.flags ≡ problem.now.facts }
    ensures value { IfOk result (λ found. found
        ≡ is_source (value_at numbers.now) most (operator_at problem.now.operators k)) }
    ensures grown { OnOk result (HasGrown (IsTracedFrom (value_at numbers.now) most
        zone.now.flags (operator_at problem.now.operators k)) asked.old asked.new) }
    ensures done { IfOk result (λ found. found ≡ false → IsTraced (value_at numbers.now)
        zone.now.flags (operator_at problem.now.operators k) asked.new.flags) }
{
    match valued_support_of(numbers, problem.pre(k)) {
        Some(found) => trace_support(numbers, zone, most, found, asked),
        None => Ok(false),
    }
}

/// Whether one of the operators that add a fact has edges from the start or from a cheap fact; else the supports of all of
/// them are asked for.
fn trace_all(
    problem: &Relaxed,
    numbers: &[u64],
    zone: &Marks,
    most: u64,
    adders: &[u32],
    x: u32,
    asked: &mut Marks,
) -> Result<bool, OutOfMemory>
    requires operators { All (λ k. k < length problem.now.operators) adders.now }
    requires adders { HasAdders problem.now.operators x adders.now }
    requires sized { length numbers.now ≡ problem.now.facts }
    requires zone { length zone.now.flags ≡ problem.now.facts }
    requires asked { length asked.old.flags ≡ problem.now.facts }
    ensures found { IfOk result (λ found. found ≡ true
        → HasSource (value_at numbers.now) most problem.now.operators x) }
    ensures grown { OnOk result (HasGrown (IsBehind (value_at numbers.now) most
        problem.now.operators zone.now.flags x) asked.old asked.new) }
    ensures done { IfOk result (λ found. found ≡ false → TracesBack (value_at numbers.now) most
        problem.now.operators zone.now.flags x asked.new.flags) }
{
    for k in adders {
        let found = trace(problem, numbers, zone, most, *k, asked)?;
        if found {
            return Ok(true);
        }
    }
    Ok(false)
}

/// Whether a dear fact outside the zone is near: whether a search back from it comes to a fact that is known to be, or to which
/// an operator leads from the start or from a cheap fact.
fn is_reached(
    problem: &Relaxed,
    numbers: &[u64],
    adders: &[List<u32>],
    zone: &Marks,
    most: u64,
    x: u32,
    asked: &mut Marks,
    near: &Marks,
) -> Result<bool, OutOfMemory>
    requires fact { x < problem.now.facts }
    requires adders { AreAdders problem.now.operators problem.now.facts adders.now }
    requires sized { length numbers.now ≡ problem.now.facts }
    requires len { length zone.now.flags ≡ problem.now.facts }
    requires zone { IsZone (value_at numbers.now) problem.now.operators problem.now.goals
        zone.now.flags }
    requires near { length near.now.flags ≡ problem.now.facts }
    requires marks { AreNearFacts (value_at numbers.now) problem.now.operators problem.now.goals most
        near.now.flags }
    requires outside { is_marked zone.now.flags x ≡ false }
    requires dear { is_cheap_for (value_at numbers.now) most x ≡ false }
    ensures { IfOk result (λ found. (s : Numbers)
        → AreValuesFor (value_at numbers.now) problem.now.operators problem.now.goals most s
        → found ≡ is_near (value_at numbers.now) problem.now.operators problem.now.goals s x) }
{
    asked.begin(problem.facts())?;
    asked.mark(x)?;
    'facts: while let Some(y) = asked.next() {
        if near.has(y) {
            return Ok(true);
        }
        let row = adders[y as usize].as_slice();
        let found = trace_all(problem, numbers, zone, most, row, y, asked)?;
        if found {
            return Ok(true);
        }
    }
    Ok(false)
}

/// Whether a fact is near.
fn is_near_fact(
    problem: &Relaxed,
    numbers: &[u64],
    adders: &[List<u32>],
    zone: &Marks,
    most: u64,
    x: u32,
    asked: &mut Marks,
    near: &Marks,
) -> Result<bool, OutOfMemory>
    requires fact { x < problem.now.facts }
    requires adders { AreAdders problem.now.operators problem.now.facts adders.now }
    requires sized { length numbers.now ≡ problem.now.facts }
    requires len { length zone.now.flags ≡ problem.now.facts }
    requires zone { IsZone (value_at numbers.now) problem.now.operators problem.now.goals
        zone.now.flags }
    requires near { length near.now.flags ≡ problem.now.facts }
    requires marks { AreNearFacts (value_at numbers.now) problem.now.operators problem.now.goals most
        near.now.flags }
    ensures { IfOk result (λ found. (s : Numbers)
        → AreValuesFor (value_at numbers.now) problem.now.operators problem.now.goals most s
        → found ≡ is_near (value_at numbers.now) problem.now.operators problem.now.goals s x) }
{
    if is_cheap(numbers, most, x) {
        return Ok(true);
    }
    if zone.has(x) {
        return Ok(false);
    }
    is_reached(problem, numbers, adders, zone, most, x, asked, near)
}

/// Marks a fact that was found.
fn mark_found(found: bool, x: u32, near: &mut Marks) -> Result<(), OutOfMemory>
    requires { x < length near.old.flags }
    ensures { OnOk result (HasGrown (λ y. (y ≡ x) × (found ≡ true)) near.old near.new) }
{
    if found {
        near.mark(x)?;
    }
    Ok(())
}

/// Whether a fact is near. One that is gets a mark, so that it is not asked for twice.
fn learn(
    problem: &Relaxed,
    numbers: &[u64],
    adders: &[List<u32>],
    zone: &Marks,
    most: u64,
    x: u32,
    asked: &mut Marks,
    near: &mut Marks,
) -> Result<bool, OutOfMemory>
    requires fact { x < problem.now.facts }
    requires adders { AreAdders problem.now.operators problem.now.facts adders.now }
    requires sized { length numbers.now ≡ problem.now.facts }
    requires len { length zone.now.flags ≡ problem.now.facts }
    requires zone { IsZone (value_at numbers.now) problem.now.operators problem.now.goals
        zone.now.flags }
    requires near { length near.old.flags ≡ problem.now.facts }
    requires marks { AreNearFacts (value_at numbers.now) problem.now.operators problem.now.goals most
        near.old.flags }
    ensures value { IfOk result (λ found. (s : Numbers)
        → AreValuesFor (value_at numbers.now) problem.now.operators problem.now.goals most s
        → found ≡ is_near (value_at numbers.now) problem.now.operators problem.now.goals s x) }
    ensures near { OnOk result (length near.new.flags ≡ problem.now.facts) }
    ensures marks { OnOk result (AreNearFacts (value_at numbers.now) problem.now.operators problem.now.goals most
        near.new.flags) }
{
    if near.has(x) {
        return Ok(true);
    }
    let found = is_near_fact(problem, numbers, adders, zone, most, x, asked, near)?;
    mark_found(found, x, near)?;
    Ok(found)
}

/// Whether a support is near, or there is none.
fn is_from(
    problem: &Relaxed,
    numbers: &[u64],
    adders: &[List<u32>],
    zone: &Marks,
    most: u64,
    support: Option<u32>,
    asked: &mut Marks,
    near: &mut Marks,
) -> Result<bool, OutOfMemory>
    requires inside { IfSome support (λ x. x < length numbers.now) }
    requires adders { AreAdders problem.now.operators problem.now.facts adders.now }
    requires sized { length numbers.now ≡ problem.now.facts }
    requires len { length zone.now.flags ≡ problem.now.facts }
    requires zone { IsZone (value_at numbers.now) problem.now.operators problem.now.goals
        zone.now.flags }
    requires near { length near.old.flags ≡ problem.now.facts }
    requires marks { AreNearFacts (value_at numbers.now) problem.now.operators problem.now.goals most
        near.old.flags }
    ensures value { IfOk result (λ found. (s : Numbers)
        → AreValuesFor (value_at numbers.now) problem.now.operators problem.now.goals most s
        → found ≡ list_all (is_near (value_at numbers.now) problem.now.operators problem.now.goals s)
        (option_to_list support)) }
    ensures near { OnOk result (length near.new.flags ≡ problem.now.facts) }
    ensures marks { OnOk result (AreNearFacts (value_at numbers.now) problem.now.operators problem.now.goals most
        near.new.flags) }
{
    match support {
        Some(x) => learn(problem, numbers, adders, zone, most, x, asked, near),
        None => Ok(true),
    }
}

/// Whether an operator has edges from the near side, or from the start.
pub(crate) fn has_near_edge(
    problem: &Relaxed,
    numbers: &[u64],
    adders: &[List<u32>],
    zone: &Marks,
    most: u64,
    k: u32,
    asked: &mut Marks,
    near: &mut Marks,
) -> Result<bool, OutOfMemory>
    requires operator { k < length problem.now.operators }
    requires adders { AreAdders problem.now.operators problem.now.facts adders.now }
    requires sized { length numbers.now ≡ problem.now.facts }
    requires len { length zone.now.flags ≡ problem.now.facts }
    requires zone { IsZone (value_at numbers.now) problem.now.operators problem.now.goals
        zone.now.flags }
    requires near { length near.old.flags ≡ problem.now.facts }
    requires marks { AreNearFacts (value_at numbers.now) problem.now.operators problem.now.goals most
        near.old.flags }
    ensures value { IfOk result (λ found. (s : Numbers)
        → AreValuesFor (value_at numbers.now) problem.now.operators problem.now.goals most s
        → found ≡ is_from_near (value_at numbers.now) problem.now.operators problem.now.goals s
        (operator_at problem.now.operators k)) }
    ensures near { OnOk result (length near.new.flags ≡ problem.now.facts) }
    ensures marks { OnOk result (AreNearFacts (value_at numbers.now) problem.now.operators problem.now.goals most
        near.new.flags) }
{
    match valued_support_of(numbers, problem.pre(k)) {
        Some(support) => is_from(problem, numbers, adders, zone, most, support, asked, near),
        None => Ok(false),
    }
}
