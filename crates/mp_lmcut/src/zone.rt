//! The goal zone: the facts from which operators without a cost lead to the dearest goal.

ghost use Rattle.std.specs.Prelude.{◌≡◌, ◌<◌, ◌≤◌, ◌&&◌, ◌==◌, ◌+◌, ◌++◌, ◌∷◌, [], ℕ, All, List as ListOf, OnOk, length, slice_index_or, true};
ghost use Rattle.std.specs.List.{list_all, list_any};
ghost use Rattle.mp_relaxed.specs.Relaxed.{HasAdders, operator_at};
ghost use Rattle.mp_estimates.specs.Lowering.{value_at};
ghost use Rattle.mp_lmcut.specs.Cut.{in_zone, support};
ghost use Rattle.mp_lmcut.specs.Marked.{HasGrown, IsReaching, is_marked, weight};
ghost use Rattle.mp_lmcut.specs.Sides.{AreAdders, HasZone, IsFollowed, IsTurned, IsZone, Supports, TurnsBack, is_free as is_free_edge};

use crate::marks::Marks;
use crate::supports::{are_valued, support_of};
use mp_list::{List, OutOfMemory};
use mp_relaxed::Relaxed;

/// Whether the preconditions of an operator have values, and its edges no cost.
fn is_free(problem: &Relaxed, numbers: &[u64], k: u32) -> bool
    requires operator { k < length problem.now.operators }
    requires sized { length numbers.now ≡ problem.now.facts }
    ensures { result ≡ is_free_edge (value_at numbers.now) (operator_at problem.now.operators k) }
{
    problem.cost(k) == 0 && are_valued(numbers, problem.pre(k))
}

/// Marks the support of some preconditions, if there is one.
fn mark_support(numbers: &[u64], pre: &[u32], marks: &mut Marks) -> Result<(), OutOfMemory>
    requires inside { All (λ x. x < length numbers.now) pre.now }
    requires flags { length marks.old.flags ≡ length numbers.now }
    ensures grown { OnOk result (HasGrown (Supports (value_at numbers.now) pre.now) marks.old marks.new) }
    ensures all { OnOk result
        (list_all (is_marked marks.new.flags) (support (value_at numbers.now) pre.now) ≡ true) }
{
    if let Some(x) = support_of(numbers, pre) {
        marks.mark(x)?;
    }
    Ok(())
}

/// Marks the support of an operator whose edges have no cost.
fn turn_back(
    problem: &Relaxed,
    numbers: &[u64],
    k: u32,
    marks: &mut Marks,
) -> Result<(), OutOfMemory>
    requires operator { k < length problem.now.operators }
    requires sized { length numbers.now ≡ problem.now.facts }
    requires flags { length marks.old.flags ≡ length numbers.now }
    ensures grown { OnOk result (HasGrown
        (λ y. (is_free_edge (value_at numbers.now) (operator_at problem.now.operators k) ≡ true)
        × Supports (value_at numbers.now) (operator_at problem.now.operators k).pre y)
        marks.old marks.new) }
    ensures done { OnOk result
        (IsTurned (value_at numbers.now) (operator_at problem.now.operators k) marks.new.flags) }
{
    if is_free(problem, numbers, k) {
        mark_support(numbers, problem.pre(k), marks)?;
    }
    Ok(())
}

/// Marks the supports of operators without a cost that add a fact of the zone.
fn turn_all(
    problem: &Relaxed,
    numbers: &[u64],
    adders: &[u32],
    x: u32,
    marks: &mut Marks,
) -> Result<(), OutOfMemory>
    requires operators { All (λ k. k < length problem.now.operators) adders.now }
    requires adders { HasAdders problem.now.operators x adders.now }
    requires sized { length numbers.now ≡ problem.now.facts }
    requires flags { length marks.old.flags ≡ length numbers.now }
    requires zone { in_zone (value_at numbers.now) problem.now.operators problem.now.goals x ≡ true }
    ensures grown { OnOk result (HasGrown
        (λ y. in_zone (value_at numbers.now) problem.now.operators problem.now.goals y ≡ true)
        marks.old marks.new) }
    ensures done { OnOk result
        (TurnsBack (value_at numbers.now) problem.now.operators x marks.new.flags) }
{
    for k in adders {
        turn_back(problem, numbers, *k, marks)?;
    }
    Ok(())
}

/// Empties a list of facts.
fn empty(inside: &mut Vec<u32>)
    ensures { inside.new.items ≡ [] }
{
    inside.clear();
}

/// Puts a fact at the end of a list.
fn put(x: u32, inside: &mut Vec<u32>) -> Result<(), OutOfMemory>
    ensures { OnOk result (inside.new.items ≡ inside.old.items ++ x ∷ []) }
{
    inside.push(x)?;
    Ok(())
}

/// Marks all from which operators without a cost lead to what is marked, and lists it.
fn spread(
    problem: &Relaxed,
    numbers: &[u64],
    adders: &[List<u32>],
    marks: &mut Marks,
    inside: &mut Vec<u32>,
) -> Result<(), OutOfMemory>
    requires adders { AreAdders problem.now.operators problem.now.facts adders.now }
    requires sized { length numbers.now ≡ problem.now.facts }
    requires flags { length marks.old.flags ≡ length numbers.now }
    requires reaching { IsReaching
        (λ y. in_zone (value_at numbers.now) problem.now.operators problem.now.goals y ≡ true)
        (IsFollowed (value_at numbers.now) problem.now.operators inside.old.items) marks.old }
    requires inside { All
        (λ y. in_zone (value_at numbers.now) problem.now.operators problem.now.goals y ≡ true) inside.old.items }
    ensures kept { OnOk result ((x : ℕ) → is_marked marks.old.flags x ≡ true
        → is_marked marks.new.flags x ≡ true) }
    ensures all { OnOk result ((x : ℕ) → is_marked marks.new.flags x ≡ true
        → (in_zone (value_at numbers.now) problem.now.operators problem.now.goals x ≡ true)
        × IsFollowed (value_at numbers.now) problem.now.operators inside.new.items x marks.new.flags) }
    ensures inside { OnOk result (All
        (λ y. in_zone (value_at numbers.now) problem.now.operators problem.now.goals y ≡ true) inside.new.items) }
    ensures len { OnOk result (length marks.new.flags ≡ length marks.old.flags) }
{
    'facts: while let Some(x) = marks.next() {
        put(x, inside)?;
        turn_all(problem, numbers, adders[x as usize].as_slice(), x, marks)?;
    }
    Ok(())
}

/// Marks the goal zone, and lists its facts. Refuses only for want of memory.
pub(crate) fn mark_zone(
    problem: &Relaxed,
    numbers: &[u64],
    adders: &[List<u32>],
    marks: &mut Marks,
    inside: &mut Vec<u32>,
) -> Result<(), OutOfMemory>
    requires adders { AreAdders problem.now.operators problem.now.facts adders.now }
    requires sized { length numbers.now ≡ problem.now.facts }
    ensures zone { OnOk result
        (IsZone (value_at numbers.now) problem.now.operators problem.now.goals marks.new.flags) }
    ensures listed { OnOk result (HasZone (value_at numbers.now) problem.now.operators problem.now.goals
        problem.now.facts inside.new.items) }
    ensures len { OnOk result (length marks.new.flags ≡ problem.now.facts) }
{
    marks.begin(problem.facts())?;
    empty(inside);
    mark_support(numbers, problem.goals(), marks)?;
    spread(problem, numbers, adders, marks, inside)?;
    Ok(())
}
