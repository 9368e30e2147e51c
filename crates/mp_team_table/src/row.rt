//! The rows of a table.

use crate::declared::declared_in;
use crate::size::GroundSize;
use mp_grounder::GroundRefusal;
use mp_list::OutOfMemory;
use mp_typing::CheckedFactor;
use std::alloc::Global;

/// The two lines above all rows.
const HEADER: &str =
    "agent  objects  types  predicates        facts             actions          goals     tried
                       public  private   public  private   public  private
";

/// Writes the two lines above all rows.
pub fn push_header(out: &mut String) -> Result<(), OutOfMemory> {
    out.push_str(HEADER)?;
    Ok(())
}

/// Writes how large a grounded factor is; `-` where it is refused.
fn push_size(
    out: &mut String,
    size: &Result<GroundSize, GroundRefusal>,
) -> Result<(), OutOfMemory> {
    match size {
        Ok(size) => {
            let facts = size.public_facts;
            let own_facts = size.private_facts;
            let actions = size.public_actions;
            let own_actions = size.private_actions;
            write!(out, "{facts:>9}{own_facts:>9}{actions:>9}{own_actions:>9}")?;
        }
        Err(_) => out.push_str("        -        -        -        -")?,
    }
    Ok(())
}

/// Writes how many bindings are tried; `-` where they are too many.
fn push_tried(out: &mut String, tried: Option<u64>) -> Result<(), OutOfMemory> {
    match tried {
        Some(tried) => write!(out, "{tried:>10}")?,
        None => out.push_str("         -")?,
    }
    Ok(())
}

/// Writes why `maplan` refuses the size of an agent.
fn push_refusal(out: &mut String, refusal: GroundRefusal) -> Result<(), OutOfMemory> {
    match refusal {
        GroundRefusal::TooManyTries(_) => {
            out.push_str("  too large: more than 50000000 bindings are tried")?
        }
        GroundRefusal::TooManyActions(_, count) => write!(
            out,
            "  too large: {count} actions, and at most 200000 are accepted"
        )?,
        GroundRefusal::TooManyFacts(_, count) => write!(
            out,
            "  too large: {count} facts, and at most 65535 are accepted"
        )?,
        GroundRefusal::OutOfMemory => {}
    }
    Ok(())
}

/// Writes how many objects, types, public predicates and private ones the files of an agent declare.
fn push_declared(
    alloc: Global,
    out: &mut String,
    checked: &CheckedFactor,
) -> Result<(), OutOfMemory> {
    let declared = declared_in(alloc, checked)?;
    let objects = declared.objects;
    let types = declared.types;
    let public = declared.public_predicates;
    let private = declared.private_predicates;
    write!(out, "{objects:>9}{types:>7}{public:>8}{private:>9}")?;
    Ok(())
}

/// Writes the row of the agent of this number: the objects, types and predicates of its files, its facts and actions once
/// it is grounded, its goals, and how many bindings are tried; and why `maplan` refuses its size, if it does. Refuses only
/// for want of memory.
pub fn push_row(
    alloc: Global,
    out: &mut String,
    number: u16,
    checked: &CheckedFactor,
    size: &Result<GroundSize, GroundRefusal>,
    tried: Option<u64>,
) -> Result<(), OutOfMemory> {
    let goals = checked.factor().problem.goals.len();
    write!(out, "{number:>5}")?;
    push_declared(alloc, out, checked)?;
    push_size(out, size)?;
    write!(out, "{goals:>7}")?;
    push_tried(out, tried)?;
    if let Err(refusal) = size {
        push_refusal(out, *refusal)?;
    }
    out.push('\n')?;
    Ok(())
}
