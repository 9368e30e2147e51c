//! The texts of public facts, and the places of facts by them.

ghost use Rattle.std.specs.Prelude.{◌≡◌, ◌≤◌, ◌++◌, ◌∷◌, codes, length, map, not, IfOk, OnOk};
ghost use Rattle.mp_sexp.specs.Numbers.{name_at, number_in};
ghost use Rattle.mp_sexp.specs.Bytes.{folded};
ghost use Rattle.mp_lifting.specs.Texts.{bracketed};
ghost use Rattle.mp_views.specs.Lines.{spaced};
ghost use Rattle.mp_views.specs.Sorted.{sorted_once as once_sorted};
ghost use Rattle.mp_grounder.specs.Numbered.{text_at, count_private, public_texts_at, places_of};

use crate::names::{FactNames, Names};
use crate::places::Places;
use mp_ground_facts::GroundFact;
use mp_lifting::FactTexts;
use mp_list::{Copied, List, OutOfMemory};
use mp_sexp::{Name, NameList, NameTable};
use mp_views::{push_name, sorted_once};
use std::alloc::Global;

/// Appends the name with a number: nothing where there is no such name.
fn push_numbered(text: &mut Vec<u8>, names: &Names<'_>, number: u32) -> Result<(), OutOfMemory>
    ensures { OnOk result (folded text.new.items ≡ folded text.old.items ++ name_at names.now number) }
{
    match names.name(number as usize) {
        Some(name) => push_name(text, name),
        None => Ok(()),
    }
}

/// Appends the names with these numbers, each behind one space.
#[tactic(auto, using(mp_views::proofs::FoldedLemmas::fact_steps))]
fn push_names(text: &mut Vec<u8>, names: &Names<'_>, numbers: &[u32]) -> Result<(), OutOfMemory>
    ensures { OnOk result (folded text.new.items
        ≡ folded text.old.items ++ spaced (map (name_at names.now) numbers.now)) }
{
    for number in numbers {
        text.push(b' ')?;
        push_numbered(text, names, *number)?;
    }
    Ok(())
}

/// Appends `(PREDICATE OBJECT ..)`.
#[tactic(auto, using(mp_views::proofs::FoldedLemmas::fact_steps))]
fn push_fact(
    text: &mut Vec<u8>,
    names: &FactNames<'_>,
    predicate: u32,
    objects: &[u32],
) -> Result<(), OutOfMemory>
    ensures { OnOk result (folded text.new.items ≡ folded text.old.items ++ bracketed
        (name_at names.now.predicates predicate ∷ map (name_at names.now.objects) objects.now)) }
{
    text.push(b'(')?;
    push_numbered(text, &names.predicates, predicate)?;
    push_names(text, &names.objects, objects)?;
    text.push(b')')?;
    Ok(())
}

/// Appends `(not (PREDICATE OBJECT ..))`.
#[tactic(auto, using(mp_views::proofs::FoldedLemmas::fact_steps))]
fn push_complement(
    text: &mut Vec<u8>,
    names: &FactNames<'_>,
    predicate: u32,
    objects: &[u32],
) -> Result<(), OutOfMemory>
    ensures { OnOk result (folded text.new.items ≡ folded text.old.items ++ (codes "(not " ++ bracketed
        (name_at names.now.predicates predicate ∷ map (name_at names.now.objects) objects.now) ++ codes ")")) }
{
    text.extend_from_slice(b"(not ")?;
    push_fact(text, names, predicate, objects)?;
    text.push(b')')?;
    Ok(())
}

/// The text of a fact or complement. What `scratch` has is lost.
fn fact_text(
    alloc: Global,
    scratch: &mut Vec<u8>,
    names: &FactNames<'_>,
    fact: &GroundFact,
) -> Result<Name, OutOfMemory>
    ensures { IfOk result (λ text. text ≡ text_at names.now fact.now) }
{
    scratch.clear();
    if fact.is_complement {
        push_complement(scratch, names, fact.predicate, fact.objects.as_slice())?;
    } else {
        push_fact(scratch, names, fact.predicate, fact.objects.as_slice())?;
    }
    Name::folded(alloc, scratch.as_slice())
}

/// The texts of facts and complements.
fn texts_of(
    alloc: Global,
    names: &FactNames<'_>,
    facts: &[GroundFact],
) -> Result<NameList, OutOfMemory>
    ensures { IfOk result (λ texts. texts ≡ map (text_at names.now) facts.now) }
{
    let mut scratch = Vec::new(alloc);
    let mut texts = List::with_capacity(alloc, facts.len())?;
    for fact in facts {
        texts.push(fact_text(alloc, &mut scratch, names, fact)?)?;
    }
    Ok(texts)
}

/// How many of some facts are private.
fn private_count(facts: &[GroundFact]) -> usize
    ensures count { result ≡ count_private facts.now }
    ensures within { result ≤ length facts.now }
{
    facts.iter().filter(|fact| !fact.is_public).count()
}

/// The number of a name in a table.
fn short_number(table: &NameTable<'_>, name: &Name) -> u32
    requires { length table.now ≤ 65535 }
    ensures { result ≡ number_in table.now name.now }
{
    table.number(name) as u32
}

/// The numbers of some names in a list of names.
fn numbers_in(alloc: Global, names: &NameList, some: &[Name]) -> Result<List<u32>, OutOfMemory>
    requires { length names.now ≤ 65535 }
    ensures { IfOk result (λ numbers. numbers ≡ map (number_in names.now) some.now) }
{
    let table = NameTable::of(alloc, names.as_slice())?;
    let mut numbers = List::with_capacity(alloc, some.len())?;
    for name in some {
        numbers.push(short_number(&table, name))?;
    }
    Ok(numbers)
}

/// The texts of the public facts of a factor, and the places of its facts.
#[derive(Drop)]
pub struct Publics {
    pub texts: FactTexts,
    pub places: Places,
}

/// The texts of the public facts among facts of which private ones come first, and the places of all.
pub fn publics_of(
    alloc: Global,
    names: &FactNames<'_>,
    facts: &[GroundFact],
) -> Result<Publics, OutOfMemory>
    requires { length facts.now ≤ 65535 }
    ensures { IfOk result (λ made. made ≡ record {
      texts = once_sorted (public_texts_at names.now facts.now);
      places = places_of names.now facts.now;
    }) }
{
    let privates = private_count(facts);
    let spelled = texts_of(alloc, names, &facts[privates..])?;
    let texts = sorted_once(alloc, Name::copy_all(alloc, spelled.as_slice())?)?;
    let publics = numbers_in(alloc, &texts, spelled.as_slice())?;
    Ok(Publics {
        texts,
        places: Places {
            privates: privates as u32,
            publics,
        },
    })
}
