//! What an action changes.

ghost use Rattle.std.specs.Prelude.{◌≡◌, ◌||◌, ◌&&◌, not, map, List as ListOf, OnOk};
ghost use Rattle.mp_checker.specs.declared.fact.FactNumbers.{FactNumbers as Fact};
ghost use Rattle.mp_checker.specs.At.{fact_at, is_true, is_one_of};
ghost use Rattle.mp_checker.specs.Marked.{true_facts};
ghost use Rattle.mp_checker.specs.Places.{ArePlaces, HasGrown};

use crate::facts::Facts;
use crate::marks::set_marks;
use crate::numbered::NumberedAction;
use crate::places::atom_places;
use crate::room::Room;
use mp_list::OutOfMemory;
use mp_sets::Agent;
use std::alloc::Global;

/// Makes facts false, and then others true, by their numbers.
fn mark_changes(facts: &mut Facts, dels: &[u32], adds: &[u32]) -> Result<(), OutOfMemory>
    ensures known { OnOk result (facts.new.known.keys ≡ facts.old.known.keys) }
    ensures changed { (cleared set : ListOf Fact) → ArePlaces facts.old.known.keys cleared dels.now
        → ArePlaces facts.old.known.keys set adds.now
        → OnOk result ((f : Fact) → is_true (true_facts facts.new) f
        ≡ (is_one_of set f || (is_true (true_facts facts.old) f && not (is_one_of cleared f)))) }
{
    set_marks(&mut facts.marks, dels, false)?;
    set_marks(&mut facts.marks, adds, true)?;
    Ok(())
}

/// Takes an action's deletes out and then puts its adds in, and notes their numbers. Refuses only for want of memory.
pub fn change(
    alloc: Global,
    facts: &mut Facts,
    room: &mut Room,
    agent: Agent,
    action: &NumberedAction,
) -> Result<(), OutOfMemory>
    ensures changed { OnOk result ((f : Fact) → is_true (true_facts facts.new) f
        ≡ (is_one_of (map (fact_at agent room.old.args.items) action.now.add) f
        || (is_true (true_facts facts.old) f
        && not (is_one_of (map (fact_at agent room.old.args.items) action.now.del) f)))) }
    ensures grows { OnOk result (HasGrown facts.old.known.keys facts.new.known.keys) }
    ensures adds { OnOk result (ArePlaces facts.new.known.keys
        (map (fact_at agent room.old.args.items) action.now.add) room.new.places.adds.items) }
    ensures dels { OnOk result (ArePlaces facts.new.known.keys
        (map (fact_at agent room.old.args.items) action.now.del) room.new.places.dels.items) }
    ensures needs { room.new.places.needs.items ≡ room.old.places.needs.items }
    ensures against { room.new.places.against.items ≡ room.old.places.against.items }
{
    let args = room.args.as_slice();
    atom_places(
        alloc,
        facts,
        &mut room.numbers,
        agent,
        args,
        action.add.as_slice(),
        &mut room.places.adds,
    )?;
    atom_places(
        alloc,
        facts,
        &mut room.numbers,
        agent,
        args,
        action.del.as_slice(),
        &mut room.places.dels,
    )?;
    mark_changes(
        facts,
        room.places.dels.as_slice(),
        room.places.adds.as_slice(),
    )?;
    Ok(())
}
