//! The operators of a projected problem, as far as a pattern sees them.

ghost use Rattle.std.specs.Prelude.{◌≡◌, ◌<◌, ◌≤◌, ◌+◌, ◌++◌, ◌∷◌, [], ℕ, List, IfOk, IfSome, OnOk, take};
ghost use Rattle.mp_estimates.specs.Estimates.{lesser};
ghost use Rattle.mp_task.specs.Limits.{ActFits, FarFits, IsWithinLimits};
ghost use Rattle.mp_task.specs.Projected.{far_operator, own_operator, projected};
ghost use Rattle.mp_task.specs.Strips.{Operator};
ghost use Rattle.mp_pdb.specs.Moves.{AreMoves, IsPlaceOf, StandsFor};
ghost use Rattle.mp_pdb.specs.Pattern.{least, missing, missing_of, pattern_of};

use crate::moves::Move;
use crate::pattern::{MOST, Pattern};
use mp_list::OutOfMemory;
use mp_task::{Act, Far, Task};
use std::alloc::Global;
use std::collections::HashMap;

/// The move of an own action.
fn own_move(pattern: &Pattern, publics: u32, privates: u32, act: &Act) -> Move
    requires sized { pattern.now.size ≡ publics + privates }
    requires fits { ActFits publics privates act.now }
    ensures { StandsFor pattern.now.facts (own_operator publics act.now) result }
{
    let pre = pattern.mask_of(publics, &act.pre_pub, &act.pre_priv);
    let add = pattern.mask_of(publics, &act.add_pub, &act.add_priv);
    let del = pattern.mask_of(publics, &act.del_pub, &act.del_priv);
    Move {
        pre,
        add,
        del,
        cost: act.cost,
    }
}

/// The move of the part of another agent's action.
fn far_move(pattern: &Pattern, agents: u16, publics: u32, part: &Far) -> Move
    requires sized { publics ≤ pattern.now.size }
    requires fits { FarFits agents publics part.now }
    ensures { StandsFor pattern.now.facts (far_operator part.now) result }
{
    let pre = pattern.mask_of_publics(&part.pre);
    let add = pattern.mask_of_publics(&part.add);
    let del = pattern.mask_of_publics(&part.del);
    Move {
        pre,
        add,
        del,
        cost: part.cost,
    }
}

/// The place of a move with the same sets, if a map of places knows one: it is looked at, so that nothing has to be known of
/// the map.
fn place_of(moves: &[Move], places: &HashMap<(u16, u16, u16), usize>, found: &Move) -> Option<usize>
    ensures { IfSome result (λ place. IsPlaceOf moves.now place found.now) }
{
    let place = *places.get(&(found.pre, found.add, found.del))?;
    if place < moves.len() && moves[place].is_like(found) {
        Some(place)
    } else {
        None
    }
}

/// Makes a move cost less, where it costs more than another with the same sets.
fn lower_cost(moves: &mut Vec<Move>, place: usize, found: Move)
    requires { IsPlaceOf moves.old.items place found }
    ensures { (pattern : List ℕ) (operators : List Operator) (o : Operator)
        → AreMoves pattern operators moves.old.items → StandsFor pattern o found
        → AreMoves pattern (operators ++ o ∷ []) moves.new.items }
{
    if found.cost < moves[place].cost {
        moves[place] = found;
    }
}

/// Adds a move, unless it changes nothing, or once where there is one with the same sets: at the least cost.
fn note(
    moves: &mut Vec<Move>,
    places: &mut HashMap<(u16, u16, u16), usize>,
    found: Move,
) -> Result<(), OutOfMemory>
    ensures { OnOk result ((pattern : List ℕ) (operators : List Operator) (o : Operator)
        → AreMoves pattern operators moves.old.items → StandsFor pattern o found
        → AreMoves pattern (operators ++ o ∷ []) moves.new.items) }
{
    if found.is_idle() {
        return Ok(());
    }
    if let Some(place) = place_of(moves.as_slice(), places, &found) {
        lower_cost(moves, place, found);
        return Ok(());
    }
    places.insert((found.pre, found.add, found.del), moves.len())?;
    moves.push(found)?;
    Ok(())
}

/// The moves of the operators of a task's projected problem.
pub(crate) fn moves_of(
    alloc: Global,
    task: &Task,
    pattern: &Pattern,
) -> Result<Vec<Move>, OutOfMemory>
    requires { pattern.now.size ≡ task.now.publics + task.now.privates }
    ensures { IfOk result (λ moves. AreMoves pattern.now.facts (projected task.now).operators moves.items) }
{
    let mut moves = Vec::new(alloc);
    let mut places = HashMap::new(alloc);
    for act in task.acts.as_slice() {
        let found = own_move(pattern, task.publics, task.privates, act);
        note(&mut moves, &mut places, found)?;
    }
    for part in task.far.as_slice() {
        let found = far_move(pattern, task.agents, task.publics, part);
        note(&mut moves, &mut places, found)?;
    }
    Ok(moves)
}

/// The lowest of a fact and of those that an own action needs, where it adds a fact of a pattern, and the pattern misses.
fn lowest_of_own(
    pattern: &Pattern,
    publics: u32,
    privates: u32,
    act: &Act,
    lowest: Option<u32>,
) -> Option<u32>
    requires sized { pattern.now.size ≡ publics + privates }
    requires fits { ActFits publics privates act.now }
    ensures { result ≡ lesser lowest (least (missing_of pattern.now.facts (own_operator publics act.now))) }
{
    if pattern.mask_of(publics, &act.add_pub, &act.add_priv) == 0 {
        return lowest;
    }
    let lowest = pattern.lowest_missing(0, act.pre_pub.as_slice(), lowest);
    pattern.lowest_missing(publics, act.pre_priv.as_slice(), lowest)
}

/// The lowest of a fact and of those that the part of another agent's action needs, where it adds a fact of a pattern, and
/// the pattern misses.
fn lowest_of_far(
    pattern: &Pattern,
    agents: u16,
    publics: u32,
    part: &Far,
    lowest: Option<u32>,
) -> Option<u32>
    requires sized { publics ≤ pattern.now.size }
    requires fits { FarFits agents publics part.now }
    ensures { result ≡ lesser lowest (least (missing_of pattern.now.facts (far_operator part.now))) }
{
    if pattern.mask_of_publics(&part.add) == 0 {
        return lowest;
    }
    pattern.lowest_missing(0, part.pre.as_slice(), lowest)
}

/// The lowest fact that a pattern misses.
fn next_of(task: &Task, pattern: &Pattern) -> Option<u32>
    requires { pattern.now.size ≡ task.now.publics + task.now.privates }
    ensures least { result ≡ least (missing (projected task.now).operators pattern.now.facts) }
    ensures below { IfSome result (λ x. x < pattern.now.size) }
{
    let mut lowest = None;
    for act in task.acts.as_slice() {
        lowest = lowest_of_own(pattern, task.publics, task.privates, act, lowest);
    }
    for part in task.far.as_slice() {
        lowest = lowest_of_far(pattern, task.agents, task.publics, part, lowest);
    }
    lowest
}

/// The first goals of a task, as a pattern.
fn goals_of(alloc: Global, task: &Task) -> Result<Pattern, OutOfMemory>
    ensures made { IfOk result (λ made. made ≡ record {
      size = task.now.publics + task.now.privates;
      facts = take 12 (projected task.now).goals;
    }) }
    ensures limits { IfOk result (λ _. IsWithinLimits task.now) }
{
    let mut pattern = Pattern::new(alloc, task.publics + task.privates)?;
    pattern.push_first(0, task.goal_pub.as_slice())?;
    pattern.push_first(task.publics, task.goal_priv.as_slice())?;
    Ok(pattern)
}

/// The pattern of a task's projected problem.
pub(crate) fn pattern_for(alloc: Global, task: &Task) -> Result<Pattern, OutOfMemory>
    ensures made { IfOk result (λ made. made ≡ record {
      size = task.now.publics + task.now.privates;
      facts = pattern_of (projected task.now);
    }) }
    ensures limits { IfOk result (λ _. IsWithinLimits task.now) }
{
    let mut pattern = goals_of(alloc, task)?;
    'grow: while pattern.len() < MOST {
        let Some(fact) = next_of(task, &pattern) else {
            return Ok(pattern);
        };
        pattern.push(fact)?;
    }
    Ok(pattern)
}
