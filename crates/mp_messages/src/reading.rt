//! States from bytes without memory: their facts go into a set that is there, and their tags in the place of others.

ghost use Rattle.std.specs.Prelude.{◌≡◌, ◌+◌, ◌<◌, ◌^◌, IfOk, IfSome, ◌∷◌};
ghost use Rattle.std.specs.Option.{option_map};
ghost use Rattle.mp_messages.specs.Parts.{parts, IsStateReading};
ghost use Rattle.mp_messages.specs.Reading.{as_set, counted_at, facts_at, in_parts, state_at, tags_at};

use crate::decoding::{costs, fact, short_number, tag};
use crate::message::StateNumbers;
use mp_list::OutOfMemory;
use mp_sets::{Bits, Tags};

/// Reads so many tags, in place of those that were there.
fn tags_into<'a>(
    count: u16,
    bytes: &'a [u8],
    tags: &mut Tags,
) -> Result<Option<&'a [u8]>, OutOfMemory>
    ensures { IfOk result (λ read. option_map (λ rest. (tags.new, rest.now)) read ≡ tags_at count bytes.now) }
{
    tags.clear();
    let mut rest = bytes;
    for _ in 0..count {
        let Some((tag, after)) = tag(rest) else {
            return Ok(None);
        };
        tags.push(tag)?;
        rest = after;
    }
    Ok(Some(rest))
}

/// Reads so many facts into a set, in place of those that it had.
fn facts_into<'a>(publics: u32, count: u32, bytes: &'a [u8], facts: &mut Bits) -> Option<&'a [u8]>
    requires { facts.old.size ≡ publics }
    ensures read { option_map (λ rest. (facts.new.members, rest.now)) result ≡ as_set (facts_at publics count 0 bytes.now) }
    ensures size { facts.new.size ≡ publics }
{
    facts.clear();
    let mut least = 0;
    let mut rest = bytes;
    for _ in 0..count {
        let Some((fact, after)) = fact(publics, least, rest) else {
            return None;
        };
        facts.insert(fact);
        least = fact + 1;
        rest = after;
    }
    Some(rest)
}

#[tactic(auto, unfolding(crate::specs::Reading::counted_at))]
fn counted_into<'a>(publics: u32, bytes: &'a [u8], facts: &mut Bits) -> Option<&'a [u8]>
    requires { facts.old.size ≡ publics }
    ensures read { option_map (λ rest. (facts.new.members, rest.now)) result ≡ as_set (counted_at publics bytes.now) }
    ensures size { facts.new.size ≡ publics }
{
    let (count, rest) = short_number(bytes)?;
    facts_into(publics, count, rest, facts)
}

fn state_into<'a>(
    agents: u16,
    publics: u32,
    bytes: &'a [u8],
    facts: &mut Bits,
    tags: &mut Tags,
) -> Result<Option<(StateNumbers, &'a [u8])>, OutOfMemory>
    requires { facts.old.size ≡ publics }
    ensures read { IfOk result (λ read. option_map (λ x. (parts x.0 facts.new.members tags.new, x.1.now)) read
        ≡ in_parts (state_at agents publics bytes.now)) }
    ensures size { facts.new.size ≡ publics }
    ensures below { IfOk result (λ read. IfSome read (λ x. x.0.g + x.0.h < 2 ^ 60)) }
{
    let Some(((sent, g, h), rest)) = costs(bytes) else {
        return Ok(None);
    };
    let Some(rest) = counted_into(publics, rest, facts) else {
        return Ok(None);
    };
    let Some(rest) = tags_into(agents, rest, tags)? else {
        return Ok(None);
    };
    Ok(Some((StateNumbers { sent, g, h }, rest)))
}

/// All of the bytes that follow the byte of a state.
fn whole_state_into(
    agents: u16,
    publics: u32,
    bytes: &[u8],
    facts: &mut Bits,
    tags: &mut Tags,
) -> Result<Option<StateNumbers>, OutOfMemory>
    requires { facts.old.size ≡ publics }
    ensures read { IfOk result (λ read. IsStateReading agents publics (1 ∷ bytes.now)
        (option_map (λ n. parts n facts.new.members tags.new) read)) }
    ensures size { facts.new.size ≡ publics }
    ensures below { IfOk result (λ read. IfSome read (λ n. n.g + n.h < 2 ^ 60)) }
{
    let Some((numbers, rest)) = state_into(agents, publics, bytes, facts, tags)? else {
        return Ok(None);
    };
    if !rest.is_empty() {
        return Ok(None);
    }
    Ok(Some(numbers))
}

/// The state that bytes spell, all of them, in a team of so many agents with as many public facts as the size of the
/// set: its facts go into the set, and its tags in the place of others. None exactly where they spell no state; what the
/// set and the tags are then is not told. Takes memory only where the tags have no room for as many as there are agents.
pub fn decode_state_into(
    agents: u16,
    bytes: &[u8],
    facts: &mut Bits,
    tags: &mut Tags,
) -> Result<Option<StateNumbers>, OutOfMemory>
    ensures read { IfOk result (λ read. IsStateReading agents facts.old.size bytes.now
        (option_map (λ n. parts n facts.new.members tags.new) read)) }
    ensures size { facts.new.size ≡ facts.old.size }
    ensures below { IfOk result (λ read. IfSome read (λ n. n.g + n.h < 2 ^ 60)) }
{
    let publics = facts.size();
    match bytes {
        [1, rest @ ..] => whole_state_into(agents, publics, rest, facts, tags),
        _ => Ok(None),
    }
}
