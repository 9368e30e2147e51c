//! What is told of a problem that was made.

ghost use Rattle.std.specs.Prelude.{◌≡◌, ◌++◌, ◌∷◌, [], IfOk, OnOk};
ghost use Rattle.mp_plans.specs.Made.{heading, kind_of, made_text as made_text_of, shown_text as shown_text_of};

use crate::write::{push_labelled_line, push_number};
use mp_list::{List, OutOfMemory};
use mp_messages::Bytes;
use mp_sexp::Name;
use mp_world::Answer;
use std::alloc::Global;

/// What is told of a made problem of so many agents: how many they are, and the cost and the length of the plan, or that
/// there is none or none was found. It is empty where the answer is `Nothing`. Refuses only for want of memory.
pub fn made_text(alloc: Global, size: u16, answer: &Answer) -> Result<Bytes, OutOfMemory>
    ensures { IfOk result (λ text. text ≡ made_text_of size answer.now) }
{
    let mut text = List::new(alloc);
    match answer {
        Answer::Nothing => return Ok(text),
        Answer::Solved { cost, length } => {
            push_labelled_line(&mut text, b"agents ", u64::from(size))?;
            push_labelled_line(&mut text, b"cost ", *cost)?;
            push_labelled_line(&mut text, b"length ", *length)?;
        }
        Answer::Unsolvable => {
            push_labelled_line(&mut text, b"agents ", u64::from(size))?;
            text.extend_from_slice(b"unsolvable\n")?;
        }
        Answer::Undecided => {
            push_labelled_line(&mut text, b"agents ", u64::from(size))?;
            text.extend_from_slice(b"undecided\n")?;
        }
    }
    Ok(text)
}

/// Appends the line before a file: whose it is, and which of the two.
fn push_heading(text: &mut Bytes, agent: u64, kind: &[u8]) -> Result<(), OutOfMemory>
    ensures { OnOk result (text.new ≡ text.old ++ heading agent kind.now) }
{
    text.extend_from_slice(b";; agent ")?;
    push_number(text, agent)?;
    text.extend_from_slice(kind)?;
    text.extend_from_slice(b"\n")
}

/// Appends a file behind the line that tells whose it is, and which of the two.
fn push_file(text: &mut Bytes, agent: u64, kind: &[u8], file: &Name) -> Result<(), OutOfMemory>
    ensures { OnOk result (text.new ≡ text.old ++ (heading agent kind.now ++ file.now)) }
{
    push_heading(text, agent, kind)?;
    text.extend_from_slice(file.as_slice())
}

/// Which of the two files of its agent stands at a place.
fn kind(place: usize) -> &'static [u8]
    ensures { result.now ≡ kind_of place }
{
    if place % 2 == 0 {
        b" domain"
    } else {
        b" problem"
    }
}

/// The files of a team, for each agent its domain and then its problem, each behind a line that tells whose it is.
/// Refuses only for want of memory.
pub fn shown_text(alloc: Global, files: &[Name]) -> Result<Bytes, OutOfMemory>
    ensures { IfOk result (λ text. text ≡ shown_text_of files.now) }
{
    let mut text = List::new(alloc);
    for (place, file) in files.iter().enumerate() {
        push_file(&mut text, place as u64 / 2 + 1, kind(place), file)?;
    }
    Ok(text)
}
