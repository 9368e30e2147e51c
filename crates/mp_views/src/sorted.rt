//! Texts in the order of their bytes, each once.

ghost use Rattle.std.specs.Prelude.{◌≡◌, IfOk};
ghost use Rattle.mp_views.specs.Sorted.{sorted_once as once_sorted};

use mp_list::{List, OutOfMemory};
use mp_sexp::{Name, NameList};
use std::alloc::Global;

/// The same texts as a list.
fn list_of(alloc: Global, texts: Vec<Name>) -> Result<NameList, OutOfMemory>
    ensures { IfOk result (λ list. list ≡ texts.items) }
{
    let mut list = List::with_capacity(alloc, texts.len())?;
    for text in texts {
        list.push(text)?;
    }
    Ok(list)
}

/// Texts in the order of their bytes, each once. Refuses only for want of memory.
pub fn sorted_once(alloc: Global, texts: Vec<Name>) -> Result<NameList, OutOfMemory>
    ensures { IfOk result (λ sorted. sorted ≡ once_sorted texts.items) }
{
    let mut sorted = texts;
    // Facts of a file most often stand in long runs that rise already, and these are merged.
    sorted.sort()?;
    sorted.dedup();
    list_of(alloc, sorted)
}
