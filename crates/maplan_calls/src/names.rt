//! Names with numbers, and copies of facts and steps by their names.

use crate::calls::{Call, Out};
use crate::lines::{long, part, short, split_word};
use crate::states::agent_at;
use mp_joint::{NamedFact, PlanStep};
use mp_list::{Copied, List, OutOfMemory};
use mp_sets::Agent;
use mp_sexp::{Name, NameList, NameTable};
use std::alloc::Global;

/// The names of a text.
fn names_of(alloc: Global, text: &str) -> Result<NameList, OutOfMemory> {
    let mut names = List::new(alloc);
    for word in text.split_whitespace() {
        names.push(Name::folded(alloc, word.as_bytes())?)?;
    }
    Ok(names)
}

/// The table of these names.
fn table<'a>(alloc: Global, names: &'a [Name]) -> Result<NameTable<'a>, OutOfMemory> {
    let mut table = NameTable::new(alloc);
    for name in names {
        table.push(name)?;
    }
    Ok(table)
}

/// Adds the number of a name in a table, whether it is there, the name at a place, and how many there are.
fn show_number(
    alloc: Global,
    table: &NameTable<'_>,
    text: &str,
    out: &mut Out,
) -> Result<(), OutOfMemory> {
    let (name, place) = split_word(text);
    let name = Name::folded(alloc, name.as_bytes())?;
    out.show(&(table.number(&name), table.contains(&name)));
    out.show(&table.name(long(place, 0).min(99) as usize));
    out.answer(&table.len())
}

/// The same in the table of the names of a line.
fn number(alloc: Global, rest: &str, out: &mut Out) -> Result<(), OutOfMemory> {
    let names = names_of(alloc, part(rest, 1))?;
    let table = table(alloc, names.as_slice())?;
    show_number(alloc, &table, part(rest, 0), out)
}

/// Adds a copy of the fact of a line, of an owner or of none.
fn fact(alloc: Global, rest: &str, out: &mut Out) -> Result<(), OutOfMemory> {
    let (owner, name) = split_word(part(rest, 0));
    let fact = NamedFact {
        owner: Agent::new(short(owner, 0).min(99) as u16),
        predicate: Name::folded(alloc, name.as_bytes())?,
        args: names_of(alloc, part(rest, 1))?,
    };
    let copy = fact.copy()?;
    out.answer(&(copy.owner, &copy.predicate, &copy.args))
}

/// Adds a copy of the step of a line.
fn step(alloc: Global, rest: &str, out: &mut Out) -> Result<(), OutOfMemory> {
    let (agent, name) = split_word(part(rest, 0));
    let step = PlanStep {
        agent: agent_at(agent, 0),
        action: Name::folded(alloc, name.as_bytes())?,
        args: names_of(alloc, part(rest, 1))?,
    };
    let copy = step.copy()?;
    out.answer(&(copy.agent, &copy.action, &copy.args))
}

/// Adds what a call of names answers.
pub(crate) fn answer_names(
    alloc: Global,
    call: Call<'_>,
    out: &mut Out,
) -> Result<(), OutOfMemory> {
    match call.word {
        "number" => number(alloc, call.rest, out),
        "fact" => fact(alloc, call.rest, out),
        "step" => step(alloc, call.rest, out),
        _ => out.answer_not_read(),
    }
}
