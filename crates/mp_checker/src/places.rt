//! Facts that get numbers: the place of each among those that were met, in the order in which they came.

ghost use Rattle.std.specs.Prelude.{◌≡◌, ◌++◌, ◌∷◌, [], true, false, map, IfOk, OnOk, if◌then◌else◌};
ghost use Rattle.mp_checker.specs.declared.fact.FactNumbers.{FactNumbers as Fact};
ghost use Rattle.mp_checker.specs.At.{fact_at, is_true};
ghost use Rattle.mp_checker.specs.Keys.{same_numbers};
ghost use Rattle.mp_checker.specs.Marked.{HaveStayed, true_facts};
ghost use Rattle.mp_checker.specs.Places.{ArePlaces, HasGrown, IsPlace};

use crate::at::{add_objects, list_of, owner_at};
use crate::fact::FactNumbers;
use crate::facts::Facts;
use crate::key::FactKey;
use crate::marks::set_mark;
use crate::numbered::{NumberedAtom, ObjectNumber};
use indexmap::IndexSet;
use mp_list::{OutOfMemory, to_u32};
use mp_sets::Agent;
use std::alloc::Global;

/// Puts a fact that was not met behind the others.
fn add_fact(
    alloc: Global,
    known: &mut IndexSet<FactNumbers>,
    owner: Option<u16>,
    symbol: u32,
    objects: &[u32],
) -> Result<u32, OutOfMemory>
    ensures grows { OnOk result (HasGrown known.old.keys known.new.keys) }
    ensures place { IfOk result (IsPlace known.new.keys
        (record { owner = owner; symbol = symbol; objects = objects.now })) }
    ensures last { is_true known.old.keys (record { owner = owner; symbol = symbol; objects = objects.now }) ≡ false
        → OnOk result (known.new.keys
        ≡ known.old.keys ++ record { owner = owner; symbol = symbol; objects = objects.now } ∷ []) }
{
    let fact = FactNumbers {
        owner,
        symbol,
        objects: list_of(alloc, objects)?,
    };
    let (place, _) = known.insert_full(fact)?;
    to_u32(place)
}

/// Puts a fact that was not met behind the others, and lets it be false.
fn meet(
    alloc: Global,
    facts: &mut Facts,
    owner: Option<u16>,
    symbol: u32,
    objects: &[u32],
) -> Result<u32, OutOfMemory>
    ensures grows { OnOk result (HasGrown facts.old.known.keys facts.new.known.keys) }
    ensures place { IfOk result (IsPlace facts.new.known.keys
        (record { owner = owner; symbol = symbol; objects = objects.now })) }
    ensures stays { is_true facts.old.known.keys
        (record { owner = owner; symbol = symbol; objects = objects.now }) ≡ false
        → OnOk result (HaveStayed facts.old facts.new) }
{
    let place = add_fact(alloc, &mut facts.known, owner, symbol, objects)?;
    set_mark(&mut facts.marks, place, false)?;
    Ok(place)
}

/// The number of a fact. One that was not met is false.
fn place_of(
    alloc: Global,
    facts: &mut Facts,
    owner: Option<u16>,
    symbol: u32,
    objects: &[u32],
) -> Result<u32, OutOfMemory>
    ensures grows { OnOk result (HasGrown facts.old.known.keys facts.new.known.keys) }
    ensures place { IfOk result (IsPlace facts.new.known.keys
        (record { owner = owner; symbol = symbol; objects = objects.now })) }
    ensures stays { OnOk result (HaveStayed facts.old facts.new) }
{
    let key = FactKey {
        owner,
        symbol,
        objects,
    };
    match facts.known.get_index_of(key) {
        Some(place) => to_u32(place),
        None => meet(alloc, facts, owner, symbol, objects),
    }
}

/// The number of the fact of an atom. Refuses only for want of memory.
pub fn atom_place(
    alloc: Global,
    facts: &mut Facts,
    room: &mut Vec<u32>,
    agent: Agent,
    args: &[ObjectNumber],
    atom: &NumberedAtom,
) -> Result<u32, OutOfMemory>
    ensures grows { OnOk result (HasGrown facts.old.known.keys facts.new.known.keys) }
    ensures place { IfOk result (IsPlace facts.new.known.keys (fact_at agent args.now atom.now)) }
    ensures stays { OnOk result (HaveStayed facts.old facts.new) }
{
    room.clear();
    add_objects(room, args, &atom.terms)?;
    let owner = owner_at(agent, args, atom);
    place_of(alloc, facts, owner, atom.symbol, room.as_slice())
}

/// The numbers of the facts of atoms, in place of those that were made before. Refuses only for want of memory.
pub fn atom_places(
    alloc: Global,
    facts: &mut Facts,
    room: &mut Vec<u32>,
    agent: Agent,
    args: &[ObjectNumber],
    atoms: &[NumberedAtom],
    made: &mut Vec<u32>,
) -> Result<(), OutOfMemory>
    ensures grows { OnOk result (HasGrown facts.old.known.keys facts.new.known.keys) }
    ensures stays { OnOk result (HaveStayed facts.old facts.new) }
    ensures places { OnOk result (ArePlaces facts.new.known.keys
        (map (fact_at agent args.now) atoms.now) made.new.items) }
{
    made.clear();
    for atom in atoms {
        made.push(atom_place(alloc, facts, room, agent, args, atom)?)?;
    }
    Ok(())
}

/// Makes the fact of an atom true. Refuses only for want of memory.
pub fn set(
    alloc: Global,
    facts: &mut Facts,
    room: &mut Vec<u32>,
    agent: Agent,
    args: &[ObjectNumber],
    atom: &NumberedAtom,
) -> Result<(), OutOfMemory>
    ensures { OnOk result ((f : Fact) → is_true (true_facts facts.new) f
        ≡ (if same_numbers (fact_at agent args.now atom.now) f then true else is_true (true_facts facts.old) f)) }
{
    let number = atom_place(alloc, facts, room, agent, args, atom)?;
    set_mark(&mut facts.marks, number, true)?;
    Ok(())
}
