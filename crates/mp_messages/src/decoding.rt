//! Bytes to messages. What another agent sends may be any bytes.

ghost use Rattle.std.specs.Prelude.{◌≡◌, ◌≢◌, ℕ, ◌+◌, ◌<◌, ◌≤◌, Some, IfSome, IfOk, IsErrOf, slice_get, MatchResult, ◌↔◌, is_some};
ghost use Rattle.std.specs.Int.{w32, w64};
ghost use Rattle.std.specs.Option.{option_map};
ghost use Rattle.mp_messages.specs.declared.decoding.DecodeRefusal.TheVariants.{OutOfMemory as NoMemory};
ghost use Rattle.mp_messages.specs.declared.message.Message.{Message};
ghost use Rattle.mp_messages.specs.Spelling.{limit, IsSpelling};
ghost use Rattle.mp_messages.specs.Reading.{Gives, IsReading, rest_of, digits_at, number_at, flag_at, optional_at, ending_at, tag_at, tags_at, fact_at, facts_at, counted_at, costs_at, state_at, findings_at, trace_at, message_at, message_read};

use crate::message::{EndKind, Findings, Message, State};
use mp_list::OutOfMemory;
use mp_sets::{FactList, Tag, Tags};
use std::alloc::Global;
use thiserror::Error;

/// Every number that is spelled with eight bytes is below it.
const LIMIT: u64 = 1 << 60;

/// Why bytes were not read.
#[derive(Clone, Copy, Debug, PartialEq, Eq, Error)]
pub enum DecodeRefusal {
    /// The bytes spell no message of a team of that size.
    #[error("no message")]
    NotAMessage,
    /// No memory was left.
    #[error("out of memory")]
    OutOfMemory,
}

impl From<OutOfMemory> for DecodeRefusal {
    ghost from_gives = { λ _ e. e ≡ NoMemory };

    fn from(_e: OutOfMemory) -> DecodeRefusal {
        DecodeRefusal::OutOfMemory
    }
}

#[tactic(auto, unfolding(crate::specs::Reading::digits_at))]
pub(crate) fn short_number(bytes: &[u8]) -> Option<(u32, &[u8])>
    ensures { option_map (λ x. (x.0, x.1.now)) result ≡ digits_at w32 bytes.now }
{
    if bytes.len() < 4 {
        return None;
    }
    let (front, rest) = bytes.split_at(4);
    let number = u32::from_be_bytes([front[0], front[1], front[2], front[3]]);
    Some((number, rest))
}

#[tactic(auto, unfolding(crate::specs::Reading::digits_at))]
fn long_number(bytes: &[u8]) -> Option<(u64, &[u8])>
    ensures { option_map (λ x. (x.0, x.1.now)) result ≡ digits_at w64 bytes.now }
{
    if bytes.len() < 8 {
        return None;
    }
    let (front, rest) = bytes.split_at(8);
    let number = u64::from_be_bytes([
        front[0], front[1], front[2], front[3], front[4], front[5], front[6], front[7],
    ]);
    Some((number, rest))
}

#[tactic(auto, unfolding(crate::specs::Reading::number_at))]
fn number(bytes: &[u8]) -> Option<(u64, &[u8])>
    ensures value { option_map (λ x. (x.0, x.1.now)) result ≡ number_at bytes.now }
    ensures below { IfSome result (λ x. x.0 < limit) }
{
    let (number, rest) = long_number(bytes)?;
    if number < LIMIT {
        Some((number, rest))
    } else {
        None
    }
}

#[tactic(auto, unfolding(crate::specs::Reading::flag_at))]
fn flag(bytes: &[u8]) -> Option<(bool, &[u8])>
    ensures { option_map (λ x. (x.0, x.1.now)) result ≡ flag_at bytes.now }
{
    match bytes {
        [0, rest @ ..] => Some((false, rest)),
        [1, rest @ ..] => Some((true, rest)),
        _ => None,
    }
}

#[tactic(auto, unfolding(crate::specs::Reading::optional_at))]
fn optional(bytes: &[u8]) -> Option<(Option<u64>, &[u8])>
    ensures { option_map (λ x. (x.0, x.1.now)) result ≡ optional_at bytes.now }
{
    let (there, rest) = flag(bytes)?;
    if !there {
        return Some((None, rest));
    }
    let (number, rest) = number(rest)?;
    Some((Some(number), rest))
}

#[tactic(auto, unfolding(crate::specs::Reading::ending_at))]
fn ending(bytes: &[u8]) -> Option<(EndKind, &[u8])>
    ensures { option_map (λ x. (x.0, x.1.now)) result ≡ ending_at bytes.now }
{
    match bytes {
        [1, rest @ ..] => Some((EndKind::NoPlan, rest)),
        [2, rest @ ..] => Some((EndKind::Spent, rest)),
        _ => None,
    }
}

#[tactic(auto, unfolding(crate::specs::Reading::tag_at))]
pub(crate) fn tag(bytes: &[u8]) -> Option<(Tag, &[u8])>
    ensures { option_map (λ x. (x.0, x.1.now)) result ≡ tag_at bytes.now }
{
    let (token, rest) = number(bytes)?;
    let (met, rest) = flag(rest)?;
    Some((Tag { token, met }, rest))
}

#[tactic(auto, unfolding(crate::specs::Reading::findings_at))]
fn findings(bytes: &[u8]) -> Option<(Findings, &[u8])>
    ensures { option_map (λ x. (x.0, x.1.now)) result ≡ findings_at bytes.now }
{
    let (number, rest) = number(bytes)?;
    let (least, rest) = optional(rest)?;
    let (under_way, rest) = optional(rest)?;
    let (goal, rest) = optional(rest)?;
    let (spent, rest) = flag(rest)?;
    Some((
        Findings {
            number,
            least,
            under_way,
            goal,
            spent,
        },
        rest,
    ))
}

#[tactic(auto, unfolding(crate::specs::Reading::trace_at))]
fn trace(bytes: &[u8]) -> Option<((u64, u64), &[u8])>
    ensures { option_map (λ x. ((x.0.0, x.0.1), x.1.now)) result ≡ trace_at bytes.now }
{
    let (sent, rest) = number(bytes)?;
    let (back, rest) = number(rest)?;
    Some(((sent, back), rest))
}

#[tactic(auto, unfolding(crate::specs::Reading::fact_at))]
pub(crate) fn fact(publics: u32, least: u32, bytes: &[u8]) -> Option<(u32, &[u8])>
    ensures value { option_map (λ x. (x.0, x.1.now)) result ≡ fact_at publics least bytes.now }
    ensures below { IfSome result (λ x. x.0 < publics) }
    ensures above { IfSome result (λ x. least ≤ x.0) }
{
    let (fact, rest) = short_number(bytes)?;
    if fact < least || fact >= publics {
        return None;
    }
    Some((fact, rest))
}

#[tactic(auto, unfolding(crate::specs::Reading::costs_at))]
pub(crate) fn costs(bytes: &[u8]) -> Option<((u64, u64, u64), &[u8])>
    ensures value { option_map (λ x. ((x.0.0, x.0.1, x.0.2), x.1.now)) result ≡ costs_at bytes.now }
    ensures below { IfSome result (λ x. x.0.1 + x.0.2 < limit) }
{
    let (sent, rest) = number(bytes)?;
    let (g, rest) = number(rest)?;
    let (h, rest) = number(rest)?;
    if g + h < LIMIT {
        Some(((sent, g, h), rest))
    } else {
        None
    }
}

fn tags(alloc: Global, count: u16, bytes: &[u8]) -> Result<(Tags, &[u8]), DecodeRefusal>
    ensures { Gives (λ x. (x.0, x.1.now)) result (tags_at count bytes.now) }
{
    let room = (count as usize).min(bytes.len() / 9);
    let mut tags = Tags::with_capacity(alloc, room)?;
    let mut rest = bytes;
    for _ in 0..count {
        let Some((tag, after)) = tag(rest) else {
            return Err(DecodeRefusal::NotAMessage);
        };
        tags.push(tag)?;
        rest = after;
    }
    Ok((tags, rest))
}

fn facts(
    alloc: Global,
    publics: u32,
    count: u32,
    bytes: &[u8],
) -> Result<(FactList, &[u8]), DecodeRefusal>
    ensures { Gives (λ x. (x.0, x.1.now)) result (facts_at publics count 0 bytes.now) }
{
    let room = (count as usize).min(bytes.len() / 4);
    let mut facts = FactList::with_capacity(alloc, room)?;
    let mut least = 0;
    let mut rest = bytes;
    for _ in 0..count {
        let Some((fact, after)) = fact(publics, least, rest) else {
            return Err(DecodeRefusal::NotAMessage);
        };
        facts.push(fact)?;
        least = fact + 1;
        rest = after;
    }
    Ok((facts, rest))
}

#[tactic(auto, unfolding(crate::specs::Reading::counted_at))]
fn counted(alloc: Global, publics: u32, bytes: &[u8]) -> Result<(FactList, &[u8]), DecodeRefusal>
    ensures { Gives (λ x. (x.0, x.1.now)) result (counted_at publics bytes.now) }
{
    let (count, rest) = short_number(bytes).ok_or(DecodeRefusal::NotAMessage)?;
    facts(alloc, publics, count, rest)
}

#[tactic(auto, unfolding(crate::specs::Reading::state_at))]
fn state(
    alloc: Global,
    agents: u16,
    publics: u32,
    bytes: &[u8],
) -> Result<(State, &[u8]), DecodeRefusal>
    ensures { Gives (λ x. (x.0, x.1.now)) result (state_at agents publics bytes.now) }
{
    let ((sent, g, h), rest) = costs(bytes).ok_or(DecodeRefusal::NotAMessage)?;
    let (facts, rest) = counted(alloc, publics, rest)?;
    let (tags, rest) = tags(alloc, agents, rest)?;
    Ok((
        State {
            sent,
            g,
            h,
            facts,
            tags,
        },
        rest,
    ))
}

#[tactic(auto, unfolding(crate::specs::Reading::fields_at, crate::specs::Reading::message_at))]
fn other_message(bytes: &[u8]) -> Option<(Message, &[u8])>
    requires { slice_get bytes.now 0 ≢ Some 1 }
    ensures { (agents publics : ℕ) → option_map (λ x. (x.0, x.1.now)) result ≡ message_at agents publics bytes.now }
{
    match bytes {
        [2, rest @ ..] => {
            let (number, rest) = number(rest)?;
            Some((Message::Marker(number), rest))
        }
        [3, rest @ ..] => {
            let (findings, rest) = findings(rest)?;
            Some((Message::Report(findings), rest))
        }
        [4, rest @ ..] => {
            let (number, rest) = number(rest)?;
            Some((Message::Pick(number), rest))
        }
        [5, rest @ ..] => {
            let ((sent, back), rest) = trace(rest)?;
            Some((Message::Trace { sent, back }, rest))
        }
        [6, rest @ ..] => {
            let (length, rest) = number(rest)?;
            Some((Message::Length(length), rest))
        }
        [7, rest @ ..] => {
            let (end, rest) = ending(rest)?;
            Some((Message::Done(end), rest))
        }
        _ => None,
    }
}

#[tactic(auto, unfolding(crate::specs::Reading::fields_at, crate::specs::Reading::message_at))]
fn message(
    alloc: Global,
    agents: u16,
    publics: u32,
    bytes: &[u8],
) -> Result<(Message, &[u8]), DecodeRefusal>
    ensures read { Gives (λ x. (x.0, x.1.now)) result (message_at agents publics bytes.now) }
    ensures memory { IsErrOf result DecodeRefusal.OutOfMemory → slice_get bytes.now 0 ≡ Some 1 }
{
    match bytes {
        [1, rest @ ..] => {
            let (state, rest) = state(alloc, agents, publics, rest)?;
            Ok((Message::State(state), rest))
        }
        _ => other_message(bytes).ok_or(DecodeRefusal::NotAMessage),
    }
}

#[tactic(auto, unfolding(crate::specs::Reading::message_read))]
fn whole_message(
    alloc: Global,
    agents: u16,
    publics: u32,
    bytes: &[u8],
) -> Result<Message, DecodeRefusal>
    ensures read { Gives (λ m. m) result (message_read agents publics bytes.now) }
    ensures memory { IsErrOf result DecodeRefusal.OutOfMemory → slice_get bytes.now 0 ≡ Some 1 }
{
    let (message, rest) = message(alloc, agents, publics, bytes)?;
    if !rest.is_empty() {
        return Err(DecodeRefusal::NotAMessage);
    }
    Ok(message)
}

fn after_tags(count: u16, bytes: &[u8]) -> Option<&[u8]>
    ensures { option_map (λ x. x.now) result ≡ rest_of (tags_at count bytes.now) }
{
    let mut rest = bytes;
    for _ in 0..count {
        let Some((_, after)) = tag(rest) else {
            return None;
        };
        rest = after;
    }
    Some(rest)
}

fn after_facts(publics: u32, count: u32, bytes: &[u8]) -> Option<&[u8]>
    ensures { option_map (λ x. x.now) result ≡ rest_of (facts_at publics count 0 bytes.now) }
{
    let mut least = 0;
    let mut rest = bytes;
    for _ in 0..count {
        let Some((fact, after)) = fact(publics, least, rest) else {
            return None;
        };
        least = fact + 1;
        rest = after;
    }
    Some(rest)
}

#[tactic(auto, unfolding(crate::specs::Reading::counted_at))]
fn after_counted(publics: u32, bytes: &[u8]) -> Option<&[u8]>
    ensures { option_map (λ x. x.now) result ≡ rest_of (counted_at publics bytes.now) }
{
    let (count, rest) = short_number(bytes)?;
    after_facts(publics, count, rest)
}

#[tactic(auto, unfolding(crate::specs::Reading::state_at))]
fn after_state(agents: u16, publics: u32, bytes: &[u8]) -> Option<&[u8]>
    ensures { option_map (λ x. x.now) result ≡ rest_of (state_at agents publics bytes.now) }
{
    let (_, rest) = costs(bytes)?;
    let rest = after_counted(publics, rest)?;
    after_tags(agents, rest)
}

/// Whether bytes that begin with the byte of a state spell one. It takes no memory.
#[tactic(auto, unfolding(crate::specs::Reading::fields_at, crate::specs::Reading::message_at, crate::specs::Reading::message_read))]
fn is_state(agents: u16, publics: u32, bytes: &[u8]) -> bool
    requires { slice_get bytes.now 0 ≡ Some 1 }
    ensures { result ≡ is_some (message_read agents publics bytes.now) }
{
    match bytes {
        [1, rest @ ..] => match after_state(agents, publics, rest) {
            Some(end) => end.is_empty(),
            None => false,
        },
        _ => false,
    }
}

/// Memory may run out in the middle of bytes that spell nothing, so it is asked then whether they do.
fn checked_message(
    alloc: Global,
    agents: u16,
    publics: u32,
    bytes: &[u8],
) -> Result<Message, DecodeRefusal>
    ensures { IsReading result (message_read agents publics bytes.now) }
{
    match whole_message(alloc, agents, publics, bytes) {
        Ok(message) => Ok(message),
        Err(DecodeRefusal::NotAMessage) => Err(DecodeRefusal::NotAMessage),
        Err(DecodeRefusal::OutOfMemory) => {
            if is_state(agents, publics, bytes) {
                Err(DecodeRefusal::OutOfMemory)
            } else {
                Err(DecodeRefusal::NotAMessage)
            }
        }
    }
}

/// The message that bytes spell, all of them, in a team of so many agents with so many public facts.
/// `NotAMessage` comes exactly where they spell none. Only a state takes memory, so `OutOfMemory` comes only
/// where they spell a state.
pub fn decode(
    alloc: Global,
    agents: u16,
    publics: u32,
    bytes: &[u8],
) -> Result<Message, DecodeRefusal>
    // What is read is spelled so.
    ensures spelled { IfOk result (λ m. IsSpelling agents publics m bytes.now) }
    // What is spelled so is read, unless memory runs out.
    ensures found { (m : Message) → IsSpelling agents publics m bytes.now
        → MatchResult result (λ read. read ≡ m) (λ e. e ≡ DecodeRefusal.OutOfMemory) }
    // Refused is what spells nothing.
    ensures refused { IsErrOf result DecodeRefusal.NotAMessage
        ↔ ((m : Message) → IsSpelling agents publics m bytes.now → ⊥) }
    // Memory runs out only where a state is spelled.
    ensures memory { IsErrOf result DecodeRefusal.OutOfMemory
        → (s : State) × IsSpelling agents publics (Message.State s) bytes.now }
{
    checked_message(alloc, agents, publics, bytes)
}
