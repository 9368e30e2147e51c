//! The public facts of a team.

ghost use Rattle.std.specs.Prelude.{◌≡◌, ◌++◌, IfOk, OnOk};
ghost use Rattle.std.specs.List.{flat_map};
ghost use Rattle.mp_views.specs.Sorted.{sorted_once as once_sorted};

use crate::grounds::grounds_of;
use crate::shown::shown_by_all;
use mp_grounder::{Ground, GroundRefusal};
use mp_hints::text_of;
use mp_lifting::{FactTexts, OpenView};
use mp_list::{Copied, OutOfMemory};
use mp_sexp::Name;
use mp_typing::CheckedFactor;
use mp_views::sorted_once;
use std::alloc::Global;

/// Adds copies of texts.
fn add_texts(texts: &mut Vec<Name>, others: &[Name]) -> Result<(), OutOfMemory>
    ensures { OnOk result (texts.new.items ≡ texts.old.items ++ others.now) }
{
    for text in others {
        texts.push(text.copy()?)?;
    }
    Ok(())
}

/// The texts of the public facts of all agents.
fn all_texts(alloc: Global, grounds: &[Ground]) -> Result<Vec<Name>, OutOfMemory>
    ensures { IfOk result (λ texts. texts.items ≡ flat_map (λ g. g.publics) grounds.now) }
{
    let mut texts = Vec::new(alloc);
    for made in grounds {
        add_texts(&mut texts, made.publics.as_slice())?;
    }
    Ok(texts)
}

/// The texts of the public facts and complements of a team with these grounded factors, in the order of their numbers.
/// Refuses only for want of memory.
pub fn public_facts(alloc: Global, grounds: &[Ground]) -> Result<FactTexts, OutOfMemory>
    ensures { IfOk result (λ texts. texts ≡ once_sorted (flat_map (λ g. g.publics) grounds.now)) }
{
    let texts = all_texts(alloc, grounds)?;
    sorted_once(alloc, texts)
}

/// Writes texts, each behind its place.
fn push_texts(out: &mut String, texts: &[Name]) -> Result<(), OutOfMemory> {
    out.push_str("public facts by their numbers:\n")?;
    for (number, text) in texts.iter().enumerate() {
        let text = text_of(text.as_slice());
        write!(out, "{number} {text}\n")?;
    }
    Ok(())
}

/// Writes the public facts and complements of a team with these grounded factors, each behind its number.
fn push_facts(alloc: Global, out: &mut String, grounds: &[Ground]) -> Result<(), GroundRefusal> {
    let texts = public_facts(alloc, grounds)?;
    Ok(push_texts(out, texts.as_slice())?)
}

/// The same for a team that shows this before grounding.
fn push_known(
    alloc: Global,
    out: &mut String,
    team: &[CheckedFactor],
    known: &OpenView,
) -> Result<(), GroundRefusal> {
    let grounds = grounds_of(alloc, team, known)?;
    push_facts(alloc, out, grounds.as_slice())
}

/// Writes the public facts and complements of a team, a line for each, behind the numbers that they have in messages.
/// Refuses as `maplan` does where the factor of an agent is too large, and for want of memory.
pub fn explain_facts(
    alloc: Global,
    out: &mut String,
    team: &[CheckedFactor],
) -> Result<(), GroundRefusal> {
    let known = shown_by_all(alloc, team)?;
    push_known(alloc, out, team, &known)
}
