//! Stamped lists merged to one log.

ghost use Rattle.std.specs.Prelude.{◌≡◌, ◌≤◌, ◌<◌, ◌++◌, ◌∷◌, [], ℕ, All, List, length, map, slice_index_or, slice_set, IfOk, OnOk};
ghost use Rattle.mp_messages.specs.History.{IsHistory, agent_of, part};
ghost use Rattle.mp_stamps.specs.declared.stamped.Stamped.{Stamped as Item};
ghost use Rattle.mp_stamps.specs.Lists.{IsAgentOf, Matched, Rises, entries, list_of};
ghost use Rattle.mp_stamps.specs.Merged.{Merged};
ghost use Rattle.mp_stamps.specs.Sorting.{IsInOrderOf};
ghost use Rattle.mp_stamps.specs.Turns.{Begins, IsTurn, IsTurnOf, left_behind, up_to};

use crate::stamped::{Stamped, StampedList, StampedLists};
use mp_list::OutOfMemory;
use mp_messages::Log;

/// Whose turn it is, and up to which stamp.
#[derive(Clone, Copy)]
pub(crate) struct Turn {
    /// The place of the list that begins with the least stamp, the first one of several.
    pub(crate) at: usize,
    /// That stamp.
    pub(crate) stamp: u64,
    /// The greatest stamp up to which no other list's turn comes.
    pub(crate) last: u64,
}

/// The log of all lists, in the order of stamps, and of agents where stamps are equal: a legal history, of
/// which each agent's part is its list. For n entries of k lists it takes at most n k steps, and no memory
/// but that of the log and k references. Refuses only for want of memory.
pub fn merge_stamped(lists: &StampedLists) -> Result<Log, OutOfMemory>
    requires count { (1 ≤ length lists.now) × (length lists.now ≤ 16) }
    requires matched { Matched lists.now }
    ensures merged { IfOk result (λ log. Merged lists.now log) }
    ensures legal { IfOk result (λ log. IsHistory log) }
    ensures parts { IfOk result (λ log. (agent : ℕ) → IsAgentOf (length lists.now) agent
        → part log agent ≡ entries (list_of lists.now agent)) }
    ensures agents { IfOk result (λ log. All (λ e. IsAgentOf (length lists.now) (agent_of e)) log) }
{
    merged(lists)
}

/// Turn by turn, the list that begins with the least stamp gives its entries up to where another list's turn comes.
fn merged(lists: &StampedLists) -> Result<Log, OutOfMemory>
    requires { All Rises lists.now }
    ensures { IfOk result (λ log. IsInOrderOf lists.now log) }
{
    let mut log = Log::with_capacity(lists.allocator(), count_of(lists.as_slice()))?;
    let mut rests = rests_of(lists)?;
    'turns: while let Some(turn) = next_turn(rests.as_slice()) {
        take_turn(&mut rests, turn, &mut log)?;
    }
    Ok(log)
}

/// The number of all entries.
pub(crate) fn count_of(lists: &[StampedList]) -> usize {
    let mut count: usize = 0;
    for list in lists {
        count = count.saturating_add(list.len());
    }
    count
}

/// What is left of each list at first: all of it.
fn rests_of(lists: &StampedLists) -> Result<Vec<&[Stamped]>, OutOfMemory>
    ensures { IfOk result (λ rests. map (λ rest. rest.now) rests.items ≡ lists.now) }
{
    let mut rests = Vec::with_capacity(lists.allocator(), lists.len())?;
    for list in lists.as_slice() {
        rests.push(list.as_slice())?;
    }
    Ok(rests)
}

/// The next turn, none where nothing is left.
fn next_turn(rests: &[&[Stamped]]) -> Option<Turn>
    ensures { IsTurn (map (λ rest. rest.now) rests.now) result }
{
    let mut turn = None;
    for (at, rest) in rests.iter().enumerate() {
        turn = turn_with(turn, at, rest);
    }
    turn
}

/// The turn among some lists and one more behind them.
fn turn_with(turn: Option<Turn>, at: usize, rest: &[Stamped]) -> Option<Turn>
    ensures { (rests : List (List Item)) → length rests ≡ at → IsTurn rests turn → IsTurn (rests ++ rest.now ∷ []) result }
{
    let [first, ..] = rest else {
        return turn;
    };
    Some(turn_with_stamp(turn, at, first.stamp))
}

/// The turn among some lists and one more behind them that begins with a stamp.
pub(crate) fn turn_with_stamp(turn: Option<Turn>, at: usize, stamp: u64) -> Turn
    ensures { (rests : List (List Item)) (list : List Item) → length rests ≡ at → Begins stamp list
        → IsTurn rests turn → IsTurnOf (rests ++ list ∷ []) result }
{
    let Some(turn) = turn else {
        return Turn {
            at,
            stamp,
            last: u64::MAX,
        };
    };
    if stamp < turn.stamp {
        return Turn {
            at,
            stamp,
            last: turn.stamp - 1,
        };
    }
    Turn {
        last: turn.last.min(stamp),
        ..turn
    }
}

/// Adds copies of the entries whose turn it is to the log.
fn take_turn(rests: &mut Vec<&[Stamped]>, turn: Turn, log: &mut Log) -> Result<(), OutOfMemory>
    requires { turn.at < length rests.old.items }
    ensures log { OnOk result (log.new ≡ log.old
        ++ entries (up_to turn.last (slice_index_or (map (λ rest. rest.now) rests.old.items) turn.at []))) }
    ensures rests { OnOk result (map (λ rest. rest.now) rests.new.items
        ≡ slice_set (map (λ rest. rest.now) rests.old.items) turn.at
        (left_behind turn.last (slice_index_or (map (λ rest. rest.now) rests.old.items) turn.at []))) }
{
    let rest = add_up_to(rests[turn.at], turn.last, log)?;
    rests[turn.at] = rest;
    Ok(())
}

/// Adds copies of the entries up to a stamp to the log, and gives the others.
fn add_up_to<'a>(
    list: &'a [Stamped],
    last: u64,
    log: &mut Log,
) -> Result<&'a [Stamped], OutOfMemory>
    ensures log { OnOk result (log.new ≡ log.old ++ entries (up_to last list.now)) }
    ensures rest { IfOk result (λ rest. rest.now ≡ left_behind last list.now) }
{
    let mut rest = list;
    'entries: while let [first, others @ ..] = rest {
        if last < first.stamp {
            return Ok(rest);
        }
        log.push(&first.entry)?;
        rest = others;
    }
    Ok(rest)
}
