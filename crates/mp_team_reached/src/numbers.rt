//! The numbers of public facts.

use mp_grounder::Ground;
use mp_list::{OutOfMemory, to_u32};
use mp_sexp::{Name, NameTable};
use std::alloc::Global;

/// The number of each of some texts in a table of all.
fn numbers_in(
    alloc: Global,
    table: &NameTable<'_>,
    texts: &[Name],
) -> Result<Vec<u32>, OutOfMemory> {
    let mut numbers = Vec::new(alloc);
    for text in texts {
        numbers.push(to_u32(table.number(text))?)?;
    }
    Ok(numbers)
}

/// A table of texts.
fn table_of<'a>(alloc: Global, texts: &'a [Name]) -> Result<NameTable<'a>, OutOfMemory> {
    let mut table = NameTable::new(alloc);
    for text in texts {
        table.push(text)?;
    }
    Ok(table)
}

/// For each agent the team's numbers of its public facts, by their places, where these are the texts of all.
pub fn numbers_of(
    alloc: Global,
    grounds: &[Ground],
    texts: &[Name],
) -> Result<Vec<Vec<u32>>, OutOfMemory> {
    let table = table_of(alloc, texts)?;
    let mut all = Vec::new(alloc);
    for made in grounds {
        all.push(numbers_in(alloc, &table, made.publics.as_slice())?)?;
    }
    Ok(all)
}
