//! Stamped lists merged to one log, where their entries are let go.

ghost use Rattle.std.specs.Prelude.{◌≡◌, ◌≤◌, ◌<◌, ◌++◌, ◌∷◌, [], ℕ, All, List, length, slice_index_or, slice_set, IfOk, OnOk};
ghost use Rattle.mp_messages.specs.History.{IsHistory, agent_of, part};
ghost use Rattle.mp_stamps.specs.declared.stamped.Stamped.{Stamped as Item};
ghost use Rattle.mp_stamps.specs.Lists.{IsAgentOf, Matched, Rises, entries, list_of};
ghost use Rattle.mp_stamps.specs.Merged.{Merged};
ghost use Rattle.mp_stamps.specs.Sorting.{IsInOrderOf};
ghost use Rattle.mp_stamps.specs.Turns.{BeginsWith, IsTurn, begins_up_to, left_behind, up_to};

use crate::merging::{Turn, count_of, turn_with_stamp};
use crate::places::Places;
use crate::stamped::{Stamped, StampedList, StampedLists};
use mp_list::OutOfMemory;
use mp_messages::{Entry, Log};
use std::collections::VecDeque;
use std::marker::Model;

/// What is left of a list, the first entry first. Contracts see it as the list of them.
#[derive(Drop)]
struct Rest {
    entries: VecDeque<Stamped>,
    /// The place in the log of the last message that its agent put.
    put: usize,
}

impl Model for Rest {
    ghost use Rattle.std.specs.Prelude.{List};
    ghost use Rattle.mp_stamps.specs.declared.stamped.Stamped.{Stamped as Item};

    ghost Value = { List Item };

    ghost view = { λ r. r.entries.items };
}

impl Rest {
    /// All of a list.
    fn of(list: StampedList) -> Rest
        ensures { result ≡ list }
    {
        Rest {
            entries: VecDeque::from_vec(list.into_items()),
            put: 0,
        }
    }

    /// The stamp of the first entry, none where nothing is left.
    fn first_stamp(&self) -> Option<u64>
        ensures { BeginsWith result self.now }
    {
        match self.entries.front() {
            Some(first) => Some(first.stamp),
            None => None,
        }
    }

    /// Whether there is a first entry and its stamp is at most this one.
    fn begins_up_to(&self, last: u64) -> bool
        ensures { result ≡ begins_up_to last self.now }
    {
        match self.entries.front() {
            Some(first) => !(last < first.stamp),
            None => false,
        }
    }

    /// The first entry, if there is one, goes over to the log.
    fn move_first(&mut self, log: &mut Log, places: &mut Places) -> Result<(), OutOfMemory>
        ensures { OnOk result ((s : Item) (ss : List Item) → self.old ≡ s ∷ ss
            → (self.new ≡ ss) × (log.new ≡ log.old ++ s.entry ∷ [])) }
    {
        match self.entries.pop_front() {
            Some(first) => add(log, places, &mut self.put, &first.entry),
            None => Ok(()),
        }
    }
}

/// The place of the log at which the message of its next entry may stand already: a state goes to several receivers, so it
/// may be the last one that the agent put, and what is taken stands where it was put.
fn likely_place(
    next: usize,
    places: &mut Places,
    put: &mut usize,
    entry: &Entry,
) -> Result<usize, OutOfMemory> {
    let last = *put;
    match entry {
        Entry::Act(_, _) => Ok(last),
        Entry::Put { from, to, .. } => {
            places.put(*from, *to, next)?;
            *put = next;
            Ok(last)
        }
        Entry::Took { by, from, .. } => Ok(places.take(*from, *by).unwrap_or(last)),
    }
}

/// Adds an entry of an agent to the log.
fn add(
    log: &mut Log,
    places: &mut Places,
    put: &mut usize,
    entry: &Entry,
) -> Result<(), OutOfMemory>
    ensures { OnOk result (log.new ≡ log.old ++ entry.now ∷ []) }
{
    let at = likely_place(log.len(), places, put, entry)?;
    log.push_of(entry, at)
}

/// The entries up to a stamp go over to the log.
fn move_up_to(
    rest: &mut Rest,
    last: u64,
    log: &mut Log,
    places: &mut Places,
) -> Result<(), OutOfMemory>
    ensures log { OnOk result (log.new ≡ log.old ++ entries (up_to last rest.old)) }
    ensures rest { OnOk result (rest.new ≡ left_behind last rest.old) }
{
    'entries: while rest.begins_up_to(last) {
        rest.move_first(log, places)?;
    }
    Ok(())
}

/// The log of all lists, as `merge_stamped` gives it, where the lists are gone: each entry is let go as soon as the log has its
/// message. It takes at most n k steps for n entries of k lists, and memory for the log. Refuses only for want of memory.
pub fn merge_moved(lists: StampedLists) -> Result<Log, OutOfMemory>
    requires count { (1 ≤ length lists) × (length lists ≤ 16) }
    requires matched { Matched lists }
    ensures merged { IfOk result (λ log. Merged lists log) }
    ensures legal { IfOk result (λ log. IsHistory log) }
    ensures parts { IfOk result (λ log. (agent : ℕ) → IsAgentOf (length lists) agent
        → part log agent ≡ entries (list_of lists agent)) }
    ensures agents { IfOk result (λ log. All (λ e. IsAgentOf (length lists) (agent_of e)) log) }
{
    moved(lists)
}

/// Turn by turn, the list that begins with the least stamp gives its entries up to where another list's turn comes.
fn moved(lists: StampedLists) -> Result<Log, OutOfMemory>
    requires { All Rises lists }
    ensures { IfOk result (λ log. IsInOrderOf lists log) }
{
    let mut log = Log::with_capacity(lists.allocator(), count_of(lists.as_slice()))?;
    let mut places = Places::new(lists.allocator())?;
    let mut rests = rests_of(lists)?;
    'turns: while let Some(turn) = next_turn(rests.as_slice()) {
        take_turn(&mut rests, turn, &mut log, &mut places)?;
    }
    Ok(log)
}

/// What is left of each list at first: all of it.
fn rests_of(lists: StampedLists) -> Result<Vec<Rest>, OutOfMemory>
    ensures { IfOk result (λ rests. rests.items ≡ lists) }
{
    let mut rests = Vec::with_capacity(lists.allocator(), lists.len())?;
    for list in lists.into_lists() {
        rests.push(Rest::of(list))?;
    }
    Ok(rests)
}

/// The next turn, none where nothing is left.
fn next_turn(rests: &[Rest]) -> Option<Turn>
    ensures { IsTurn rests.now result }
{
    let mut turn = None;
    for (at, rest) in rests.iter().enumerate() {
        turn = turn_with(turn, at, rest);
    }
    turn
}

/// The turn among some lists and one more behind them.
fn turn_with(turn: Option<Turn>, at: usize, rest: &Rest) -> Option<Turn>
    ensures { (rests : List (List Item)) → length rests ≡ at → IsTurn rests turn → IsTurn (rests ++ rest.now ∷ []) result }
{
    let Some(stamp) = rest.first_stamp() else {
        return turn;
    };
    Some(turn_with_stamp(turn, at, stamp))
}

/// The entries whose turn it is go over to the log.
fn take_turn(
    rests: &mut Vec<Rest>,
    turn: Turn,
    log: &mut Log,
    places: &mut Places,
) -> Result<(), OutOfMemory>
    requires { turn.at < length rests.old.items }
    ensures log { OnOk result (log.new ≡ log.old ++ entries (up_to turn.last (slice_index_or rests.old.items turn.at []))) }
    ensures rests { OnOk result (rests.new.items
        ≡ slice_set rests.old.items turn.at (left_behind turn.last (slice_index_or rests.old.items turn.at []))) }
{
    let rest = &mut rests[turn.at];
    move_up_to(rest, turn.last, log, places)
}
