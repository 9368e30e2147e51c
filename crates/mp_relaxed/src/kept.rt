//! Which operators of a problem are enough: those that add something, without those beside which another one that is kept has the
//! same preconditions and the same adds and costs no more. Such a one is looked for at a few places of a table alone, so of
//! operators that are alike several may be left.

ghost use Rattle.std.specs.Prelude.{◌≡◌, ◌<◌, ◌+◌, All, IfOk, IfSome, OnOk, length, map, slice_index_or, true, vec_len};
ghost use Rattle.mp_relaxed.specs.Dominated.{AreKept};
ghost use Rattle.mp_relaxed.specs.Relaxed.{operator_at};

use crate::relaxed::Relaxed;
use mp_list::{OutOfMemory, to_u32};
use std::alloc::Global;
use std::hash::{FoldHasher, Hash, Hasher};

/// How many places are looked at for an operator.
const STEPS: u32 = 64;

/// The place of an operator among so many: that of the hash of its preconditions and its adds.
fn place_of(problem: &Relaxed, k: u32, places: usize) -> usize
    requires operator { k < length problem.now.operators }
    requires some { 0 < places }
    ensures { result < places }
{
    let mut state = FoldHasher::default();
    for x in problem.pre(k) {
        x.hash(&mut state);
    }
    for x in problem.add(k) {
        x.hash(&mut state);
    }
    (state.finish() % places as u64) as usize
}

/// Whether two operators have the same preconditions and the same adds.
fn are_alike(problem: &Relaxed, j: u32, k: u32) -> bool
    requires one { j < length problem.now.operators }
    requires other { k < length problem.now.operators }
    ensures needed { result ≡ true →
        (operator_at problem.now.operators j).pre ≡ (operator_at problem.now.operators k).pre }
    ensures added { result ≡ true →
        (operator_at problem.now.operators j).add ≡ (operator_at problem.now.operators k).add }
{
    if problem.pre(j) != problem.pre(k) {
        return false;
    }
    problem.add(j) == problem.add(k)
}

/// The operator at one place of the list, where there is one and it is like another one.
fn alike_at(problem: &Relaxed, k: u32, at: usize, kept: &[u32]) -> Option<u32>
    requires operator { k < length problem.now.operators }
    requires below { All (λ j. j < length problem.now.operators) kept.now }
    ensures inside { IfSome result (λ _. at < length kept.now) }
    ensures own { IfSome result (λ j. slice_index_or kept.now at 0 ≡ j) }
    ensures below { IfSome result (λ j. j < length problem.now.operators) }
    ensures needed { IfSome result (λ j.
        (operator_at problem.now.operators j).pre ≡ (operator_at problem.now.operators k).pre) }
    ensures added { IfSome result (λ j.
        (operator_at problem.now.operators j).add ≡ (operator_at problem.now.operators k).add) }
{
    if at >= kept.len() {
        return None;
    }
    let other = kept[at];
    if !are_alike(problem, other, k) {
        return None;
    }
    Some(other)
}

/// Whether a place has no operator, or one that is like another one.
fn ends_search(problem: &Relaxed, k: u32, number: u32, kept: &[u32]) -> bool
    requires operator { k < length problem.now.operators }
    requires below { All (λ j. j < length problem.now.operators) kept.now }
{
    let at = number as usize;
    at >= kept.len() || alike_at(problem, k, at, kept).is_some()
}

/// The place of one like an operator, or if there is none, a free one where it may stand. Where both are far, it is some place.
fn find_place(problem: &Relaxed, k: u32, places: &[u32], kept: &[u32]) -> usize
    requires operator { k < length problem.now.operators }
    requires below { All (λ j. j < length problem.now.operators) kept.now }
    requires some { 0 < length places.now }
    ensures { result < length places.now }
{
    let mut place = place_of(problem, k, places.len());
    'steps: for _ in 0..STEPS {
        if ends_search(problem, k, places[place], kept) {
            return place;
        }
        place = if place == 0 {
            places.len() - 1
        } else {
            place - 1
        };
    }
    place
}

/// Keeps an operator in place of one like it, where it costs less.
fn keep_cheaper(problem: &Relaxed, k: u32, other: u32, at: usize, kept: &mut Vec<u32>)
    requires operator { k < length problem.now.operators }
    requires other { other < length problem.now.operators }
    requires inside { at < vec_len kept.old }
    requires own { slice_index_or kept.old.items at 0 ≡ other }
    requires needed { (operator_at problem.now.operators other).pre ≡ (operator_at problem.now.operators k).pre }
    requires added { (operator_at problem.now.operators other).add ≡ (operator_at problem.now.operators k).add }
    requires kept { AreKept problem.now.operators k kept.old.items }
    ensures { AreKept problem.now.operators (k + 1) kept.new.items }
{
    let own = problem.cost(k);
    let its = problem.cost(other);
    if its <= own {
        return;
    }
    kept[at] = k;
}

/// Keeps an operator as a further one, and its number in a place.
fn keep(
    problem: &Relaxed,
    k: u32,
    place: usize,
    places: &mut Vec<u32>,
    kept: &mut Vec<u32>,
) -> Result<(), OutOfMemory>
    requires operator { k < length problem.now.operators }
    requires inside { place < vec_len places.old }
    requires kept { AreKept problem.now.operators k kept.old.items }
    ensures kept { OnOk result (AreKept problem.now.operators (k + 1) kept.new.items) }
    ensures len { vec_len places.new ≡ vec_len places.old }
{
    let number = to_u32(kept.len())?;
    kept.push(k)?;
    places[place] = number;
    Ok(())
}

/// Keeps the operator with a number, unless it adds nothing or one like it is found that costs no more; one that is found and costs
/// more is let go.
fn take(
    problem: &Relaxed,
    k: u32,
    places: &mut Vec<u32>,
    kept: &mut Vec<u32>,
) -> Result<(), OutOfMemory>
    requires operator { k < length problem.now.operators }
    requires some { 0 < vec_len places.old }
    requires kept { AreKept problem.now.operators k kept.old.items }
    ensures kept { OnOk result (AreKept problem.now.operators (k + 1) kept.new.items) }
    ensures len { vec_len places.new ≡ vec_len places.old }
{
    if problem.add(k).is_empty() {
        return Ok(());
    }
    let place = find_place(problem, k, places.as_slice(), kept.as_slice());
    let at = places[place] as usize;
    if let Some(other) = alike_at(problem, k, at, kept.as_slice()) {
        keep_cheaper(problem, k, other, at, kept);
        return Ok(());
    }
    keep(problem, k, place, places, kept)
}

/// Places without numbers, for so many operators.
fn empty_places(alloc: Global, count: u32) -> Result<Vec<u32>, OutOfMemory>
    ensures { IfOk result (λ places. 0 < vec_len places) }
{
    Ok(vec![in alloc; u32::MAX; 2 * count as usize + 1]?)
}

/// The numbers of the operators that are enough. Refuses only for want of memory.
pub(crate) fn kept_of(alloc: Global, problem: &Relaxed) -> Result<Vec<u32>, OutOfMemory>
    ensures { IfOk result (λ kept. AreKept problem.now.operators (length problem.now.operators) kept.items) }
{
    let count = problem.operators();
    let mut places = empty_places(alloc, count)?;
    let mut kept = Vec::new(alloc);
    for k in 0..count {
        take(problem, k, &mut places, &mut kept)?;
    }
    Ok(kept)
}

/// What some operators cost.
pub(crate) fn costs_at(
    alloc: Global,
    problem: &Relaxed,
    numbers: &[u32],
) -> Result<Vec<u64>, OutOfMemory>
    requires { All (λ k. k < length problem.now.operators) numbers.now }
    ensures { IfOk result (λ costs. costs.items ≡ map (λ k. (operator_at problem.now.operators k).cost) numbers.now) }
{
    let mut costs = Vec::with_capacity(alloc, numbers.len())?;
    for k in numbers {
        costs.push(problem.cost(*k))?;
    }
    Ok(costs)
}
