//! Names that are declared more than once.

ghost use Rattle.std.specs.Prelude.{◌≡◌, IfOk};
ghost use Rattle.std.specs.List.{flat_map};
ghost use Rattle.std.specs.Cmp.Lexicographic.{pointwise};
ghost use Rattle.mp_forms.specs.declared.word.Word.{Word};
ghost use Rattle.mp_typing.specs.Faults.{leftmost};
ghost use Rattle.std.specs.Option.{option_copied};
ghost use Rattle.mp_typing.specs.Lookups.{objects_of};
ghost use Rattle.mp_typing.specs.Repeats.{is_same, is_alike, repeated_faults, object_faults, unlike_faults, twice_if};

use crate::declared::Declared;
use crate::each::{Check, each_fault};
use crate::fault::{Fault, FaultKind, with};
use crate::names::NameSet;
use mp_forms::{File, Schema, Signature, Typed, Word};
use mp_list::OutOfMemory;
use std::alloc::Global;

/// What is declared under a name.
pub trait Named {
    ghost called: { Self → Word };

    /// The word that declares it.
    fn word(&self) -> &Word
        ensures { result.now ≡ called self.now };
}

impl Named for Typed {
    ghost called = { λ t. t.word };

    fn word(&self) -> &Word {
        &self.word
    }
}

impl Named for Signature {
    ghost called = { λ s. s.word };

    fn word(&self) -> &Word {
        &self.word
    }
}

impl Named for Schema {
    ghost called = { λ s. s.word };

    fn word(&self) -> &Word {
        &self.word
    }
}

/// The first fault, with that of a word, where it is a second declaration. Refuses only for want of memory.
fn repeat_fault(
    least: Option<Fault>,
    file: File,
    is_second: bool,
    word: &Word,
) -> Result<Option<Fault>, OutOfMemory>
    ensures { IfOk result (λ first. first ≡ leftmost least (twice_if is_second file word.now)) }
{
    if is_second {
        with(least, FaultKind::Twice, file, word)
    } else {
        Ok(least)
    }
}

/// The first fault, with those of the items whose names earlier ones of them have. Refuses only for want of memory.
pub fn repeated_fault<T: Named>(
    alloc: Global,
    least: Option<Fault>,
    file: File,
    items: &[T],
) -> Result<Option<Fault>, OutOfMemory>
    ensures { IfOk result (λ first. first ≡ leftmost least (repeated_faults file T.called items.now)) }
{
    let mut before = NameSet::new(alloc);
    let mut first = least;
    for item in items {
        let word = item.word();
        let is_new = before.insert(&word.name)?;
        first = repeat_fault(first, file, !is_new, word)?;
    }
    Ok(first)
}

/// Whether two words have the same name.
pub fn is_same_name(a: &Word, b: &Word) -> bool
    ensures { result ≡ is_same a.now b.now }
{
    a.name.as_slice() == b.name.as_slice()
}

/// Whether two lists have the same names in the same order.
fn is_same_list(a: &[Word], b: &[Word]) -> bool
    ensures { result ≡ pointwise is_same a.now b.now }
{
    if a.len() != b.len() {
        return false;
    }
    for (i, word) in a.iter().enumerate() {
        if !is_same_name(word, &b[i]) {
            return false;
        }
    }
    true
}

/// Whether two objects are of the same types as they are written, and of the same privacy.
#[tactic(auto, unfolding(crate::specs::Repeats::is_alike))]
fn has_same_types(a: &Typed, b: &Typed) -> bool
    ensures { result ≡ is_alike a.now b.now }
{
    is_same_list(a.types.as_slice(), b.types.as_slice()) && a.private == b.private
}

/// The first fault, with that of an object that is unlike the first of its name. Refuses only for want of memory.
fn unlike_fault(
    least: Option<Fault>,
    file: File,
    first: Option<&Typed>,
    object: &Typed,
) -> Result<Option<Fault>, OutOfMemory>
    ensures { IfOk result (λ found. found ≡ leftmost least (unlike_faults file (option_copied first.entry) object.now)) }
{
    match first {
        None => Ok(least),
        Some(first) => {
            if has_same_types(first, object) {
                Ok(least)
            } else {
                with(least, FaultKind::Twice, file, &object.word)
            }
        }
    }
}

/// Objects of a file that are unlike the first of all objects of their name.
#[derive(Clone, Copy)]
pub struct Unlike<'s, 'd> {
    pub file: File,
    pub declared: &'s Declared<'d>,
}

#[tactic(auto, unfolding(crate::specs::Repeats::object_faults))]
impl<'s, 'd> Check<Typed> for Unlike<'s, 'd> {
    ghost faults = { λ unlike object. object_faults unlike.file (objects_of unlike.declared.now) object };

    fn fault(&self, least: Option<Fault>, object: &Typed) -> Result<Option<Fault>, OutOfMemory> {
        let first = self.declared.object(&object.word.name);
        unlike_fault(least, self.file, first, object)
    }
}

/// The first fault, with those of the constants, or of the objects, that are unlike the first of all objects of their
/// name. Refuses only for want of memory.
pub fn objects_fault(
    least: Option<Fault>,
    unlike: &Unlike<'_, '_>,
    listed: &[Typed],
) -> Result<Option<Fault>, OutOfMemory>
    ensures { IfOk result (λ first. first
        ≡ leftmost least (flat_map (object_faults unlike.now.file (objects_of unlike.now.declared.now)) listed.now)) }
{
    each_fault(least, unlike, listed)
}
