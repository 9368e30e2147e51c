//! Items that are listed by the types with which they are written.

ghost use Rattle.std.specs.Prelude.{◌≡◌, ◌++◌, ◌∷◌, [], ℕ, List as ListOf, if◌then◌else◌, OnOk};
ghost use Rattle.std.specs.Str.{bytes_eq};
ghost use Rattle.mp_typing.specs.ByType.{items_of, listed_by};

use mp_forms::WordList;
use mp_list::{Copied, List, OutOfMemory};
use mp_sexp::Name;
use std::alloc::Global;
use std::collections::HashMap;

/// For each type the items that are written with it.
pub type ByType<T> = HashMap<Name, List<T>>;

/// The items that are written with a type.
pub fn items_under<'m, T>(items: &'m ByType<T>, name: &Name) -> &'m [T]
    ensures { result.now ≡ items_of items.now.entries name.now }
{
    match items.get(name) {
        Some(all) => all.as_slice(),
        None => &[],
    }
}

/// Adds an item to those of a type.
fn add_item<T: Drop>(
    alloc: Global,
    items: &mut ByType<T>,
    name: &Name,
    item: T,
) -> Result<(), OutOfMemory>
    ensures { OnOk result ((other : ListOf ℕ) → items_of items.new.entries other
        ≡ (if bytes_eq name.now other then items_of items.old.entries other ++ item ∷ []
        else items_of items.old.entries other)) }
{
    if let Some(all) = items.get_mut(name) {
        all.push(item)?;
        return Ok(());
    }
    let mut all = List::new(alloc);
    all.push(item)?;
    items.insert(name.copy()?, all)?;
    Ok(())
}

/// Adds an item to those of each of these types. Refuses only for want of memory.
pub fn add_to_each<T: Copied + Drop>(
    alloc: Global,
    items: &mut ByType<T>,
    types: &WordList,
    item: &T,
) -> Result<(), OutOfMemory>
    ensures { OnOk result ((name : ListOf ℕ) → items_of items.new.entries name
        ≡ items_of items.old.entries name ++ listed_by item.now types.now name) }
{
    for word in types.as_slice() {
        add_item(alloc, items, &word.name, item.copy()?)?;
    }
    Ok(())
}
