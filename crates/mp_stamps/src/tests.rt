//! Lists of two agents that are merged.

ghost use Rattle.std.specs.Prelude.{◌≡◌, ◌∷◌, [], IfOk};
ghost use Rattle.mp_stamps.specs.Examples.{message as message_of, of_both, of_the_first, of_the_second};

use crate::merging::merge_stamped;
use crate::stamped::{Stamped, StampedList, StampedLists};
use mp_list::OutOfMemory;
use mp_messages::{Bytes, Entry, EntryView, Kind, Log};
use mp_sets::Agent;
use std::alloc::Global;
use std::test::Fail;

/// The bytes of a length.
fn message(alloc: Global) -> Result<Bytes, OutOfMemory>
    ensures { IfOk result (λ bytes. bytes ≡ message_of) }
{
    let mut bytes = Bytes::new(alloc);
    bytes.push(7)?;
    bytes.push(1)?;
    Ok(bytes)
}

/// What the first agent did: it expanded a state, and put a message for the second.
fn of_first(alloc: Global, one: Agent, two: Agent) -> Result<StampedList, OutOfMemory>
    requires { (one ≡ 1) × (two ≡ 2) }
    ensures { IfOk result (λ list. list ≡ of_the_first) }
{
    let mut list = StampedList::new(alloc);
    list.push(Stamped {
        stamp: 1,
        entry: Entry::Act(one, Kind::Expand),
    })?;
    let bytes = message(alloc)?;
    list.push(Stamped {
        stamp: 2,
        entry: Entry::Put {
            from: one,
            to: two,
            bytes,
        },
    })?;
    Ok(list)
}

/// What the second agent did: it expanded a state, and took the message.
fn of_second(alloc: Global, one: Agent, two: Agent) -> Result<StampedList, OutOfMemory>
    requires { (one ≡ 1) × (two ≡ 2) }
    ensures { IfOk result (λ list. list ≡ of_the_second) }
{
    let mut list = StampedList::new(alloc);
    list.push(Stamped {
        stamp: 1,
        entry: Entry::Act(two, Kind::Expand),
    })?;
    let bytes = message(alloc)?;
    list.push(Stamped {
        stamp: 3,
        entry: Entry::Took {
            by: two,
            from: one,
            bytes,
        },
    })?;
    Ok(list)
}

/// The lists of both.
fn lists_of_both(alloc: Global, one: Agent, two: Agent) -> Result<StampedLists, OutOfMemory>
    requires { (one ≡ 1) × (two ≡ 2) }
    ensures { IfOk result (λ lists. lists ≡ of_both) }
{
    let mut lists = StampedLists::new(alloc, 2)?;
    let first = of_first(alloc, one, two)?;
    let _ = lists.replace(0, first);
    let second = of_second(alloc, one, two)?;
    let _ = lists.replace(1, second);
    Ok(lists)
}

/// The log that the lists of both are merged to.
fn log_of_both(alloc: Global, one: Agent, two: Agent) -> Result<Log, OutOfMemory>
    requires { (one ≡ 1) × (two ≡ 2) }
{
    let lists = lists_of_both(alloc, one, two)?;
    merge_stamped(&lists)
}

/// The log of two agents that did nothing.
fn log_of_neither(alloc: Global) -> Result<Log, OutOfMemory> {
    let lists = StampedLists::new(alloc, 2)?;
    merge_stamped(&lists)
}

/// Whether an entry says that an agent expanded a state.
fn is_expansion(entry: &EntryView<'_>, agent: Agent) -> bool {
    match entry {
        EntryView::Act(by, Kind::Expand) => *by == agent,
        _ => false,
    }
}

/// Whether an entry says that the message was put.
fn is_put(entry: &EntryView<'_>, one: Agent, two: Agent) -> bool {
    match entry {
        EntryView::Put { from, to, bytes } => {
            *from == one && *to == two && *bytes == [7, 1].as_slice()
        }
        _ => false,
    }
}

/// Whether an entry says that the message was taken.
fn is_taken(entry: &EntryView<'_>, one: Agent, two: Agent) -> bool {
    match entry {
        EntryView::Took { by, from, bytes } => {
            *by == two && *from == one && *bytes == [7, 1].as_slice()
        }
        _ => false,
    }
}

/// Whether a log has these entries: both expand, and then the message goes over.
fn is_handed_over(log: &Log, one: Agent, two: Agent) -> bool {
    log.len() == 4
        && is_expansion(&log.entry(0), one)
        && is_expansion(&log.entry(1), two)
        && is_put(&log.entry(2), one, two)
        && is_taken(&log.entry(3), one, two)
}

#[test]
fn lists_are_merged_by_stamps(rt: HostRuntime) -> Result<(), Fail> {
    let one = Agent::new(1).ok_or("agent 1")?;
    let two = Agent::new(2).ok_or("agent 2")?;
    let log = log_of_both(rt.alloc(), one, two)?;
    assert!(rt; is_handed_over(&log, one, two));
    Ok(())
}

#[test]
fn empty_lists_are_merged(rt: HostRuntime) -> Result<(), Fail> {
    let log = log_of_neither(rt.alloc())?;
    assert!(rt; log.len() == 0);
    Ok(())
}
