//! What may stand at most so many times.

ghost use Rattle.std.specs.Prelude.{◌≡◌, ◌==◌, ◌&&◌, ◌-◌, Err, if◌then◌else◌};
ghost use Rattle.mp_forms.specs.Faults.{fault_at};
ghost use Rattle.mp_factor.specs.Found.{second_found, nothing_found};

use crate::fault::without_word;
use crate::found::{Found, second};
use mp_forms::FaultKind;
use mp_sexp::Place;
use std::alloc::Global;

/// The first of what is too many so far, and how many more may stand.
#[derive(Drop)]
pub struct Room {
    pub found: Found<()>,
    pub left: u64,
}

/// What is wrong with one at this place, where there is no room for it.
fn surplus(alloc: Global, is_surplus: bool, place: Place, kind: FaultKind) -> Found<()>
    ensures { result ≡ (if is_surplus then Err (fault_at place kind) else nothing_found) }
{
    if is_surplus {
        Err(without_word(alloc, place, kind))
    } else {
        Ok(())
    }
}

/// The room behind something at this place, which is one of those that are counted, or not.
pub fn counted(alloc: Global, room: Room, is_one: bool, place: Place, kind: FaultKind) -> Room
    ensures found { result.found
        ≡ second_found room.found (if is_one && room.left == 0 then Err (fault_at place kind) else nothing_found) }
    ensures left { result.left ≡ (if is_one then room.left - 1 else room.left) }
{
    let Room { found, left } = room;
    let here = surplus(alloc, is_one && left == 0, place, kind);
    Room {
        found: second(found, here),
        left: if is_one && left > 0 { left - 1 } else { left },
    }
}
