//! The order of a factor's types and the types of its objects, worked out once.

ghost use Rattle.std.specs.Prelude.{◌≡◌, ◌==◌, ◌||◌, List as ListOf, length, map, IfOk};
ghost use Rattle.std.specs.Bool.{Decides};
ghost use Rattle.mp_forms.specs.declared.typed_values.Typed.{Typed as Declaration};
ghost use Rattle.mp_typing.specs.Hierarchy.{HasLower, HasObjects, IsHierarchy};
ghost use Rattle.mp_typing.specs.IsA.{IsA, object_name};
ghost use Rattle.mp_typing.specs.Members.{Members};
ghost use Rattle.mp_typing.specs.Names.{is_among, names_of as names_in};

use crate::by_type::{ByType, add_to_each};
use crate::listed::{ObjectList, all_below, listed_under};
use crate::lower::{has_object, has_type, lower_types};
use indexmap::IndexSet;
use mp_forms::{Typed, TypedList, WordList};
use mp_list::{Copied, List, OutOfMemory};
use mp_sexp::Name;
use std::alloc::Global;
use std::collections::HashMap;

/// Names of types.
pub type TypeList = List<Name>;

/// The names of the types that are written behind an item. Refuses only for want of memory.
pub fn names_of(alloc: Global, words: &WordList) -> Result<TypeList, OutOfMemory>
    ensures { IfOk result (λ names. names ≡ names_in words.now) }
{
    let mut names = List::with_capacity(alloc, words.len())?;
    for word in words.as_slice() {
        names.push(word.name.copy()?)?;
    }
    Ok(names)
}

/// The order of the declared types, and the objects of each.
pub struct Hierarchy {
    /// For each type those that are declared directly under it.
    pub lower: ByType<Name>,
    /// How many objects there are.
    pub count: usize,
    /// For each type the places of the objects that are written with it.
    pub listed: ByType<u64>,
}

impl Drop for Hierarchy {
    fn drop(self) {
        let Hierarchy {
            lower: _,
            count: _,
            listed: _,
        } = self;
    }
}

/// For each type those that are declared directly under it.
fn lower_of(alloc: Global, types: &TypedList) -> Result<ByType<Name>, OutOfMemory>
    ensures { IfOk result (λ lower. HasLower types.now lower.entries) }
{
    let mut lower = HashMap::new(alloc);
    for declared in types.as_slice() {
        add_to_each(alloc, &mut lower, &declared.types, &declared.word.name)?;
    }
    Ok(lower)
}

/// For each type the places of the objects that are written with it.
fn objects_by_type(alloc: Global, objects: &[&Typed]) -> Result<ByType<u64>, OutOfMemory>
    ensures { IfOk result (λ listed. HasObjects (map (λ o. o.now) objects.now) listed.entries) }
{
    let mut listed = HashMap::new(alloc);
    let mut place = 0;
    for object in objects {
        add_to_each(alloc, &mut listed, &object.types, &place)?;
        place += 1;
    }
    Ok(listed)
}

/// Whether each object is of one of the asked types, from which these are found: none is asked, or `object` is found.
fn is_all(alloc: Global, found: &IndexSet<Name>, asked: &TypeList) -> Result<bool, OutOfMemory>
    ensures { IfOk result (λ all. all ≡ (length asked.now == 0 || is_among found.now.keys object_name)) }
{
    Ok(asked.len() == 0 || has_object(alloc, found)?)
}

impl Hierarchy {
    /// The order of declared types, and the types of objects in object order. Refuses only for want of memory.
    pub fn new(
        alloc: Global,
        types: &TypedList,
        objects: &[&Typed],
    ) -> Result<Hierarchy, OutOfMemory>
        ensures { IfOk result (λ h. IsHierarchy types.now (map (λ o. o.now) objects.now) h) }
    {
        Ok(Hierarchy {
            lower: lower_of(alloc, types)?,
            count: objects.len(),
            listed: objects_by_type(alloc, objects)?,
        })
    }

    /// Whether one type is another or lies under it, by the declarations of these types. Refuses only for want of
    /// memory.
    pub fn is_a(
        &self,
        alloc: Global,
        types: &TypedList,
        sub: &Name,
        sup: &Name,
    ) -> Result<bool, OutOfMemory>
        requires { HasLower types.now self.now.lower.entries }
        ensures { IfOk result (λ answer. Decides answer (IsA types.now sub.now sup.now)) }
    {
        let mut asked = List::new(alloc);
        asked.push(sup.copy()?)?;
        let found = lower_types(alloc, &self.lower, types, &asked)?;
        has_type(alloc, &found, sub)
    }

    /// The numbers of the objects that are of one of the asked types, by the declarations of these types. Refuses only
    /// for want of memory.
    pub fn members(
        &self,
        alloc: Global,
        types: &TypedList,
        asked: &TypeList,
    ) -> Result<ObjectList, OutOfMemory>
        requires { HasLower types.now self.now.lower.entries }
        ensures { IfOk result (λ numbers. (objects : ListOf Declaration)
            → IsHierarchy types.now objects self.now → Members types.now objects asked.now numbers) }
    {
        let found = lower_types(alloc, &self.lower, types, asked)?;
        let all = is_all(alloc, &found, asked)?;
        if all {
            return all_below(alloc, self.count as u64);
        }
        listed_under(alloc, &self.listed, &found)
    }
}
