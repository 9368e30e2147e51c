//! The types that lie under asked ones, each found once.

ghost use Rattle.std.specs.Prelude.{◌≡◌, ◌||◌, List as ListOf, slice_get, IfOk, OnOk};
ghost use Rattle.mp_forms.specs.declared.typed_values.Typed.{Typed as Declaration};
ghost use Rattle.mp_typing.specs.Hierarchy.{HasLower};
ghost use Rattle.mp_typing.specs.IsA.{object_name};
ghost use Rattle.mp_typing.specs.Names.{is_among};
ghost use Rattle.mp_typing.specs.Under.{lower, with_lower, with_types};

use crate::by_type::{ByType, items_under};
use crate::hierarchy::TypeList;
use indexmap::IndexSet;
use mp_forms::TypedList;
use mp_list::{Copied, OutOfMemory};
use mp_sexp::Name;
use std::alloc::Global;

/// Adds types, where they are new.
fn add_types(found: &mut IndexSet<Name>, names: &[Name]) -> Result<(), OutOfMemory>
    ensures { OnOk result (found.new.keys ≡ with_types found.old.keys names.now) }
{
    for name in names {
        found.insert(name.copy()?)?;
    }
    Ok(())
}

/// Adds the types directly under the one at a place, where there is one.
fn add_lower(
    found: &mut IndexSet<Name>,
    under: &ByType<Name>,
    place: usize,
) -> Result<(), OutOfMemory>
    ensures { OnOk result ((declared : ListOf Declaration) → HasLower declared under.now.entries
        → found.new.keys ≡ with_lower declared found.old.keys (slice_get found.old.keys place)) }
{
    match found.get_index(place) {
        Some(name) => {
            let names = items_under(under, name);
            add_types(found, names)
        }
        None => Ok(()),
    }
}

/// The asked types and those under them, where these are directly under each. It looks once at each type that is found
/// and at each that is declared directly under it. Refuses only for want of memory.
pub fn lower_types(
    alloc: Global,
    under: &ByType<Name>,
    types: &TypedList,
    asked: &TypeList,
) -> Result<IndexSet<Name>, OutOfMemory>
    requires { HasLower types.now under.now.entries }
    ensures { IfOk result (λ found. found.keys ≡ lower types.now asked.now) }
{
    let mut found = IndexSet::new(alloc);
    add_types(&mut found, asked.as_slice())?;
    for place in 0..asked.as_slice().len() + types.as_slice().len() {
        // Each type that is found was looked at, so no more are found.
        if place >= found.len() {
            return Ok(found);
        }
        add_lower(&mut found, under, place)?;
    }
    Ok(found)
}

/// Whether `object` is found, and each type with it. Refuses only for want of memory.
#[tactic(auto, unfolding(crate::specs::IsA::object_name))]
pub fn has_object(alloc: Global, found: &IndexSet<Name>) -> Result<bool, OutOfMemory>
    ensures { IfOk result (λ has. has ≡ is_among found.now.keys object_name) }
{
    let object = Name::folded(alloc, b"object")?;
    Ok(found.contains(&object))
}

/// Whether a type is found, or `object` is. Refuses only for want of memory.
pub fn has_type(alloc: Global, found: &IndexSet<Name>, name: &Name) -> Result<bool, OutOfMemory>
    ensures { IfOk result (λ has. has
        ≡ (is_among found.now.keys name.now || is_among found.now.keys object_name)) }
{
    Ok(found.contains(name) || has_object(alloc, found)?)
}
