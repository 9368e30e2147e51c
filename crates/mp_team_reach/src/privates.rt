//! The private goals of an agent by their numbers.

use mp_forms::Literal;
use mp_lifted::{GroundAtom, LiftedFactor, is_private};
use mp_list::OutOfMemory;
use std::alloc::Global;
use std::collections::BTreeSet;

/// A private goal: whether it is negated, its predicate and its objects. In this order private facts have their numbers.
type GoalKey<'a> = (bool, u32, &'a [u32]);

/// Adds the private ones of some goals.
fn add_goals<'a>(
    keys: &mut BTreeSet<GoalKey<'a>>,
    lifted: &LiftedFactor,
    negated: bool,
    goals: &'a [GroundAtom],
) -> Result<(), OutOfMemory> {
    for goal in goals {
        if is_private(lifted, goal.symbol, goal.args.as_slice()) {
            keys.insert((negated, goal.symbol, goal.args.as_slice()))?;
        }
    }
    Ok(())
}

/// The private goals of a factor, each once.
fn keys_of<'a>(
    alloc: Global,
    lifted: &'a LiftedFactor,
) -> Result<BTreeSet<GoalKey<'a>>, OutOfMemory> {
    let mut keys = BTreeSet::new(alloc);
    add_goals(&mut keys, lifted, false, lifted.goals.as_slice())?;
    add_goals(&mut keys, lifted, true, lifted.avoided.as_slice())?;
    Ok(keys)
}

/// The place of a goal among some.
fn place_of(goals: &[GroundAtom], symbol: u32, objects: &[u32]) -> Option<usize> {
    for (place, goal) in goals.iter().enumerate() {
        if goal.symbol == symbol && goal.args.as_slice() == objects {
            return Some(place);
        }
    }
    None
}

/// The literal that stands at a place among those that are negated, or among those that are not.
fn literal_at(literals: &[Literal], negated: bool, place: usize) -> Option<&Literal> {
    let mut left = place;
    for literal in literals {
        if literal.positive != negated {
            if left == 0 {
                return Some(literal);
            }
            left -= 1;
        }
    }
    None
}

/// The literal of a private goal.
fn literal_of<'a>(
    lifted: &LiftedFactor,
    literals: &'a [Literal],
    key: GoalKey<'_>,
) -> Option<&'a Literal> {
    let (negated, symbol, objects) = key;
    let goals = if negated {
        lifted.avoided.as_slice()
    } else {
        lifted.goals.as_slice()
    };
    let place = place_of(goals, symbol, objects)?;
    literal_at(literals, negated, place)
}

/// The literal of the private goal at a place of the agent's private goals by rising numbers.
pub(crate) fn private_goal<'a>(
    alloc: Global,
    lifted: &LiftedFactor,
    literals: &'a [Literal],
    place: usize,
) -> Result<Option<&'a Literal>, OutOfMemory> {
    let keys = keys_of(alloc, lifted)?;
    for (at, key) in keys.iter().enumerate() {
        if at == place {
            return Ok(literal_of(lifted, literals, *key));
        }
    }
    Ok(None)
}
