//! Messages that are made at random, so that many of them are good ones, and messages that are damaged.

use crate::random::Random;
use crate::rules::Seen;
use mp_list::OutOfMemory;
use std::alloc::Global;

/// Two of these are together as large as no number may be.
const HALF: u64 = 1 << 59;

/// Adds a number.
fn add_number(bytes: &mut Vec<u8>, number: u64) -> Result<(), OutOfMemory> {
    bytes.extend_from_slice(number.to_be_bytes().as_slice())?;
    Ok(())
}

/// Adds a byte.
fn add_byte(bytes: &mut Vec<u8>, byte: u8) -> Result<(), OutOfMemory> {
    bytes.push(byte)?;
    Ok(())
}

/// Adds a byte that says yes in most cases, or no.
fn add_flag(bytes: &mut Vec<u8>, random: &mut Random) -> Result<(), OutOfMemory> {
    if random.is_one_in(4) {
        return add_byte(bytes, 0);
    }
    add_byte(bytes, 1)
}

/// A small number, or seldom one of 2^59.
fn some_number(random: &mut Random) -> u64 {
    if random.is_one_in(16) {
        return HALF;
    }
    random.below(5)
}

/// A number that fits, or another one.
fn near(random: &mut Random, fitting: u64) -> u64 {
    if random.is_one_in(4) {
        return some_number(random);
    }
    fitting
}

/// Adds some public facts, with their number.
fn add_facts(bytes: &mut Vec<u8>, publics: u32, random: &mut Random) -> Result<(), OutOfMemory> {
    let most = random.below(u64::from(publics) + 1) as u32;
    let first = random.below(2) as u32;
    let count = most.saturating_sub(first);
    bytes.extend_from_slice(count.to_be_bytes().as_slice())?;
    for fact in first..first.saturating_add(count) {
        bytes.extend_from_slice(fact.to_be_bytes().as_slice())?;
    }
    Ok(())
}

/// A token: in two of three cases 0.
fn token(random: &mut Random) -> u64 {
    if random.is_one_in(2) {
        return 0;
    }
    random.below(3)
}

/// Adds a tag.
fn add_tag(bytes: &mut Vec<u8>, random: &mut Random) -> Result<(), OutOfMemory> {
    add_number(bytes, token(random))?;
    add_flag(bytes, random)
}

/// Adds the tag of the start.
fn add_first_tag(bytes: &mut Vec<u8>, holds: bool) -> Result<(), OutOfMemory> {
    add_number(bytes, 0)?;
    if holds {
        return add_byte(bytes, 1);
    }
    add_byte(bytes, 0)
}

/// Adds the tags of all agents. That of the agent that takes the message is mostly its tag of the start.
fn add_tags(bytes: &mut Vec<u8>, seen: &Seen, random: &mut Random) -> Result<(), OutOfMemory> {
    for before in 0..seen.team.agents {
        let is_own = u32::from(before) + 1 == u32::from(seen.team.me);
        if is_own && !random.is_one_in(4) {
            add_first_tag(bytes, seen.holds_at_start())?;
        } else {
            add_tag(bytes, random)?;
        }
    }
    Ok(())
}

/// Adds a state.
fn add_state(bytes: &mut Vec<u8>, seen: &Seen, random: &mut Random) -> Result<(), OutOfMemory> {
    add_byte(bytes, 1)?;
    add_number(bytes, random.below(5))?;
    add_number(bytes, some_number(random))?;
    add_number(bytes, some_number(random))?;
    add_facts(bytes, seen.team.publics, random)?;
    add_tags(bytes, seen, random)
}

/// Adds a number that may be left out.
fn add_optional(bytes: &mut Vec<u8>, random: &mut Random) -> Result<(), OutOfMemory> {
    if random.is_one_in(2) {
        return add_byte(bytes, 0);
    }
    add_byte(bytes, 1)?;
    add_number(bytes, some_number(random))
}

/// Adds a report.
fn add_report(bytes: &mut Vec<u8>, number: u64, random: &mut Random) -> Result<(), OutOfMemory> {
    add_byte(bytes, 3)?;
    add_number(bytes, number)?;
    add_optional(bytes, random)?;
    add_optional(bytes, random)?;
    add_optional(bytes, random)?;
    add_flag(bytes, random)
}

/// Adds a message of a kind with one number.
fn add_single(bytes: &mut Vec<u8>, kind: u8, number: u64) -> Result<(), OutOfMemory> {
    add_byte(bytes, kind)?;
    add_number(bytes, number)
}

/// Adds a message about a snapshot.
fn add_of_snapshot(
    bytes: &mut Vec<u8>,
    seen: &Seen,
    random: &mut Random,
) -> Result<(), OutOfMemory> {
    let next = seen.last.saturating_add(1);
    let current = match seen.under_way {
        Some(number) => number,
        None => next,
    };
    match random.below(3) {
        0 => add_single(bytes, 2, near(random, current)),
        1 => add_report(bytes, near(random, current), random),
        _ => add_single(bytes, 4, near(random, seen.last)),
    }
}

/// Adds the message about a snapshot that comes next from an agent.
fn add_next(
    bytes: &mut Vec<u8>,
    seen: &Seen,
    from: u16,
    random: &mut Random,
) -> Result<(), OutOfMemory> {
    match seen.next_of(from) {
        (3, number) => add_report(bytes, number, random),
        (kind, number) => add_single(bytes, kind, number),
    }
}

/// Adds a message about the way back, or of an end.
fn add_of_end(bytes: &mut Vec<u8>, random: &mut Random) -> Result<(), OutOfMemory> {
    match random.below(5) {
        0 => add_single(bytes, 6, some_number(random)),
        1 => {
            add_byte(bytes, 7)?;
            add_byte(bytes, random.below(4) as u8)
        }
        _ => {
            add_single(bytes, 5, random.below(4))?;
            add_number(bytes, some_number(random))
        }
    }
}

/// Whether the message about a snapshot that comes next is given: often where one is under way, and at other agents than agent 1.
fn is_next(seen: &Seen, random: &mut Random) -> bool {
    if seen.under_way.is_none() && seen.team.me == 1 {
        return random.is_one_in(16);
    }
    !random.is_one_in(3)
}

/// A message as another agent may send it.
fn plausible(
    alloc: Global,
    seen: &Seen,
    from: u16,
    random: &mut Random,
) -> Result<Vec<u8>, OutOfMemory> {
    let mut bytes = Vec::new(alloc);
    let kind = random.below(8);
    if kind == 0 {
        add_of_snapshot(&mut bytes, seen, random)?;
    } else if kind == 1 {
        add_of_end(&mut bytes, random)?;
    } else if kind < 5 && is_next(seen, random) {
        add_next(&mut bytes, seen, from, random)?;
    } else {
        add_state(&mut bytes, seen, random)?;
    }
    Ok(bytes)
}

/// Bytes without any pattern, of which the first may name a kind.
fn without_pattern(alloc: Global, random: &mut Random) -> Result<Vec<u8>, OutOfMemory> {
    let mut bytes = Vec::new(alloc);
    add_byte(&mut bytes, random.below(9) as u8)?;
    for _ in 0..random.below(60) {
        add_byte(&mut bytes, random.byte())?;
    }
    Ok(bytes)
}

/// A copy with one byte changed, one left out, one put in or the end cut off.
fn damaged(alloc: Global, bytes: &[u8], random: &mut Random) -> Result<Vec<u8>, OutOfMemory> {
    let at = random.below((bytes.len() as u64).saturating_add(1));
    let how = random.below(4);
    let mut damaged = Vec::new(alloc);
    for (place, byte) in bytes.iter().enumerate() {
        if place as u64 != at {
            add_byte(&mut damaged, *byte)?;
        } else if how == 0 {
            add_byte(&mut damaged, random.byte())?;
        } else if how == 1 {
            add_byte(&mut damaged, random.below(3) as u8)?;
            add_byte(&mut damaged, *byte)?;
        } else if how == 2 {
            return Ok(damaged);
        }
    }
    Ok(damaged)
}

/// A message from an agent that is made at random.
pub(crate) fn made_message(
    alloc: Global,
    seen: &Seen,
    from: u16,
    random: &mut Random,
) -> Result<Vec<u8>, OutOfMemory> {
    if random.is_one_in(32) {
        return without_pattern(alloc, random);
    }
    let bytes = plausible(alloc, seen, from, random)?;
    if random.is_one_in(8) {
        return damaged(alloc, bytes.as_slice(), random);
    }
    Ok(bytes)
}
