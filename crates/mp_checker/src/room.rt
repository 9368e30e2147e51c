//! Room for what is worked out in a step.

ghost use Rattle.std.specs.Prelude.{◌≡◌, ◌++◌, OnOk};

use crate::numbered::ObjectNumber;
use mp_list::OutOfMemory;
use std::alloc::Global;

/// The numbers of the facts of a step.
#[derive(Drop)]
pub struct StepPlaces {
    /// Of those that it asks for.
    pub needs: Vec<u32>,
    /// Of those that it asks against.
    pub against: Vec<u32>,
    pub adds: Vec<u32>,
    pub dels: Vec<u32>,
}

/// Room for what is worked out in a step.
#[derive(Drop)]
pub struct Room {
    /// The objects of the step.
    pub args: Vec<ObjectNumber>,
    /// The objects of one atom.
    pub numbers: Vec<u32>,
    pub places: StepPlaces,
}

/// Room that takes no memory yet.
pub fn empty_room(alloc: Global) -> Room {
    Room {
        args: Vec::new(alloc),
        numbers: Vec::new(alloc),
        places: StepPlaces {
            needs: Vec::new(alloc),
            against: Vec::new(alloc),
            adds: Vec::new(alloc),
            dels: Vec::new(alloc),
        },
    }
}

/// Puts the numbers of the facts that a step asks against behind those that it asks for. Refuses only for want of memory.
pub fn join_asked(places: &mut StepPlaces) -> Result<(), OutOfMemory>
    ensures needs { OnOk result (places.new.needs.items ≡ places.old.needs.items ++ places.old.against.items) }
    ensures adds { places.new.adds.items ≡ places.old.adds.items }
    ensures dels { places.new.dels.items ≡ places.old.dels.items }
{
    // (seldom is there one)
    if !places.against.is_empty() {
        places.needs.extend_from_slice(places.against.as_slice())?;
    }
    Ok(())
}
