//! Messages to bytes.

ghost use Rattle.std.specs.Prelude.{◌≡◌, ℕ, ◌-◌, ◌<◌, ◌^◌, ◌++◌, ◌∷◌, [], All, IfOk, OnOk};
ghost use Rattle.std.specs.List.Sorted.{IsStrictlyIncreasing};
ghost use Rattle.mp_messages.specs.declared.message.Message.{Message};
ghost use Rattle.mp_messages.specs.Spelling.{number, short_number, flag, optional, ending, tag, counted, state, findings, spelling, AreNumbers, FactsBelow, FactsRise, HasTags, IsSpelling};

use crate::history::Bytes;
use crate::message::{EndKind, Findings, Message, State};
use mp_list::OutOfMemory;
use mp_sets::{FactList, Tag};
use std::alloc::Global;

/// Adds bytes at the end.
fn put_all(out: &mut Bytes, bytes: &[u8]) -> Result<(), OutOfMemory>
    ensures { OnOk result (out.new ≡ out.old ++ bytes.now) }
{
    out.extend_from_slice(bytes)
}

#[tactic(auto, unfolding(crate::specs::Spelling::number))]
fn put_number(out: &mut Bytes, n: u64) -> Result<(), OutOfMemory>
    ensures { OnOk result (out.new ≡ out.old ++ number n) }
{
    put_all(out, &n.to_be_bytes())
}

#[tactic(auto, unfolding(crate::specs::Spelling::short_number))]
fn put_short_number(out: &mut Bytes, n: u32) -> Result<(), OutOfMemory>
    ensures { OnOk result (out.new ≡ out.old ++ short_number n) }
{
    put_all(out, &n.to_be_bytes())
}

#[tactic(auto, unfolding(crate::specs::Spelling::flag))]
fn put_flag(out: &mut Bytes, yes: bool) -> Result<(), OutOfMemory>
    ensures { OnOk result (out.new ≡ out.old ++ flag yes) }
{
    out.push(if yes { 1 } else { 0 })
}

#[tactic(auto, unfolding(crate::specs::Spelling::optional))]
fn put_optional(out: &mut Bytes, there: Option<u64>) -> Result<(), OutOfMemory>
    ensures { OnOk result (out.new ≡ out.old ++ optional there) }
{
    match there {
        None => out.push(0),
        Some(n) => {
            out.push(1)?;
            put_number(out, n)
        }
    }
}

#[tactic(auto, unfolding(crate::specs::Spelling::tag))]
fn put_tag(out: &mut Bytes, t: &Tag) -> Result<(), OutOfMemory>
    ensures { OnOk result (out.new ≡ out.old ++ tag t.now) }
{
    put_number(out, t.token)?;
    put_flag(out, t.met)
}

#[tactic(auto, using(mp_sets::proofs::RisingLemmas::rising_short), unfolding(crate::specs::Spelling::counted))]
fn put_facts(out: &mut Bytes, facts: &FactList) -> Result<(), OutOfMemory>
    requires { All (λ x. x < 2 ^ 32 - 1) facts.now }
    ensures bytes { OnOk result (out.new ≡ out.old ++ counted facts.now) }
    ensures rising { IsStrictlyIncreasing facts.now }
{
    let numbers = facts.as_slice();
    put_short_number(out, numbers.len() as u32)?;
    for fact in numbers {
        put_short_number(out, *fact)?;
    }
    Ok(())
}

#[tactic(auto, unfolding(crate::specs::Spelling::state))]
fn put_state(out: &mut Bytes, s: &State) -> Result<(), OutOfMemory>
    requires { All (λ x. x < 2 ^ 32 - 1) s.now.facts }
    ensures bytes { OnOk result (out.new ≡ out.old ++ state s.now) }
    ensures rising { OnOk result (IsStrictlyIncreasing s.now.facts) }
{
    put_number(out, s.sent)?;
    put_number(out, s.g)?;
    put_number(out, s.h)?;
    put_facts(out, &s.facts)?;
    for tag in s.tags.as_slice() {
        put_tag(out, tag)?;
    }
    Ok(())
}

#[tactic(auto, unfolding(crate::specs::Spelling::spelling))]
fn put_whole_state(out: &mut Bytes, s: &State) -> Result<(), OutOfMemory>
    requires { All (λ x. x < 2 ^ 32 - 1) s.now.facts }
    ensures bytes { OnOk result (out.new ≡ out.old ++ spelling (Message.State s.now)) }
    ensures rising { OnOk result (IsStrictlyIncreasing s.now.facts) }
{
    out.push(1)?;
    put_state(out, s)
}

#[tactic(auto, unfolding(crate::specs::Spelling::findings))]
fn put_findings(out: &mut Bytes, f: &Findings) -> Result<(), OutOfMemory>
    ensures { OnOk result (out.new ≡ out.old ++ findings f.now) }
{
    put_number(out, f.number)?;
    put_optional(out, f.least)?;
    put_optional(out, f.under_way)?;
    put_optional(out, f.goal)?;
    put_flag(out, f.spent)
}

#[tactic(auto, unfolding(crate::specs::Spelling::ending))]
fn put_ending(out: &mut Bytes, end: EndKind) -> Result<(), OutOfMemory>
    ensures { OnOk result (out.new ≡ out.old ++ ending end) }
{
    out.push(match end {
        EndKind::NoPlan => 1,
        EndKind::Spent => 2,
    })
}

#[tactic(auto, unfolding(crate::specs::Spelling::spelling))]
fn put_message(out: &mut Bytes, message: &Message) -> Result<(), OutOfMemory>
    requires { FactsBelow (2 ^ 32 - 1) message.now }
    ensures bytes { OnOk result (out.new ≡ out.old ++ spelling message.now) }
    ensures rising { OnOk result (FactsRise message.now) }
{
    match message {
        Message::State(state) => put_whole_state(out, state),
        Message::Marker(number) => {
            out.push(2)?;
            put_number(out, *number)
        }
        Message::Report(findings) => {
            out.push(3)?;
            put_findings(out, findings)
        }
        Message::Pick(number) => {
            out.push(4)?;
            put_number(out, *number)
        }
        Message::Trace { sent, back } => {
            out.push(5)?;
            put_number(out, *sent)?;
            put_number(out, *back)
        }
        Message::Length(length) => {
            out.push(6)?;
            put_number(out, *length)
        }
        Message::Done(end) => {
            out.push(7)?;
            put_ending(out, *end)
        }
    }
}

/// How many bytes a state takes at most: one for its kind, eight for each of its three numbers, four for the number of its
/// facts and for each of them, nine for each tag.
fn room_for_state(s: &State) -> usize {
    29 + 4 * s.facts.as_slice().len() + 9 * s.tags.as_slice().len()
}

/// How many bytes a message takes at most, so that memory is taken once for all of them. A report takes most of the others.
fn room_for(message: &Message) -> usize {
    match message {
        Message::State(state) => room_for_state(state),
        _ => 37,
    }
}

/// The bytes of a message. Every u64 in it has to be below 2^60, and so the sum of a state's cost and
/// heuristic value; a state's facts have to be below 2^32 - 1. A state's bytes are its spelling for as many
/// agents as it has tags and for every number of public facts above its own facts, and another message's are
/// its spelling for every team. Refuses only for want of memory.
pub fn encode(alloc: Global, message: &Message) -> Result<Bytes, OutOfMemory>
    requires numbers { AreNumbers message.now }
    requires facts { FactsBelow (2 ^ 32 - 1) message.now }
    ensures bytes { IfOk result (λ bytes. bytes ≡ spelling message.now) }
    ensures team { IfOk result (λ bytes. (agents publics : ℕ) → HasTags agents message.now
        → FactsBelow publics message.now → IsSpelling agents publics message.now bytes) }
{
    let mut out = Bytes::with_capacity(alloc, room_for(message))?;
    put_message(&mut out, message)?;
    Ok(out)
}

/// The bytes of a state's message, as `encode` gives them. Its facts have to be below 2^32 - 1. Refuses only for want of memory.
pub fn encode_state(alloc: Global, state: &State) -> Result<Bytes, OutOfMemory>
    requires { All (λ x. x < 2 ^ 32 - 1) state.now.facts }
    ensures { IfOk result (λ bytes. bytes ≡ spelling (Message.State state.now)) }
{
    let mut out = Bytes::with_capacity(alloc, room_for_state(state))?;
    put_whole_state(&mut out, state)?;
    Ok(out)
}
