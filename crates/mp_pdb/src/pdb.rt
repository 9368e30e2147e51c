//! The heuristic.

ghost use Rattle.std.specs.Prelude.{◌≡◌, ◌+◌, ◌<◌, ◌≤◌, ◌*◌, ◌%◌, ◌^◌, All, bit_or, length, vec_len, if◌then◌else◌};
ghost use Rattle.mp_task.specs.AgentTask.{AgentTask};
ghost use Rattle.mp_task.specs.Projected.{projected_state};
ghost use Rattle.std.specs.FinSet as set;
ghost use Rattle.mp_pdb.specs.Masks.{Shows};

use crate::operators::{moves_of, pattern_for};
use crate::table::settled;
use mp_list::OutOfMemory;
use mp_sets::Bits;
use mp_task::{Heuristic, Task};
use std::alloc::Global;

/// A pattern database (Culberson and Schaeffer 1998): for each set of facts of a pattern the least cost of a plan of the
/// projected problem as far as the pattern sees it. None where it has no such plan. All is worked out when it is made, so that
/// a value takes no memory.
pub struct Pdb {
    publics: u32,
    facts: Vec<u32>,
    table: Vec<u64>,
    ghost few: { vec_len facts ≤ 12 },
    ghost sized: { vec_len table ≡ 2 ^ vec_len facts },
}

impl Drop for Pdb {
    fn drop(self) {
        let Pdb {
            publics: _,
            facts: _,
            table: _,
        } = self;
    }
}

/// Whether a fact of a projected problem is true.
fn holds(fact: u32, split: u32, publics: &Bits, privates: &Bits) -> bool
    requires publics { publics.now.size ≡ split }
    requires below { fact < split + privates.now.size }
    ensures { (t : AgentTask) → t.publics ≡ split → fact < t.publics + t.privates
        → result ≡ set.contains (projected_state t publics.now.members privates.now.members) fact }
{
    if fact < split {
        publics.contains(fact)
    } else {
        privates.contains(fact - split)
    }
}

/// A set of places with one more of them, where that is wanted.
fn with_place(mask: u16, place: usize, wanted: bool) -> u16
    requires { place < 16 }
    ensures { result ≡ (if wanted then bit_or mask (1 * 2 ^ place % 2 ^ 16) else mask) }
{
    if wanted { mask | (1 << place) } else { mask }
}

/// Which facts of a pattern are true, by their places.
fn mask_of(facts: &[u32], split: u32, publics: &Bits, privates: &Bits) -> u16
    requires few { length facts.now ≤ 12 }
    requires publics { publics.now.size ≡ split }
    requires below { All (λ x. x < split + privates.now.size) facts.now }
    ensures { (t : AgentTask) → t.publics ≡ split → All (λ x. x < t.publics + t.privates) facts.now
        → Shows facts.now (set.contains (projected_state t publics.now.members privates.now.members)) result }
{
    let mut mask = 0;
    for (place, fact) in facts.iter().enumerate() {
        mask = with_place(mask, place, holds(*fact, split, publics, privates));
    }
    mask
}

impl Heuristic for Pdb {
    ghost use Rattle.mp_task.specs.Limits.{IsWithinLimits};
    ghost use Rattle.mp_pdb.specs.Pattern.{pattern_value};
    ghost use Rattle.mp_pdb.specs.Pdb.{IsDatabaseOf};
    ghost use Rattle.mp_pdb.specs.Laws.Bounds.{value_is_admissible, value_is_dead, value_is_small};

    ghost is_for = { λ h t. IsDatabaseOf t h.publics h.facts.items h.table.items };

    ghost value = { pattern_value };

    fn make(alloc: Global, task: &Task) -> Result<Pdb, OutOfMemory> {
        let pattern = pattern_for(alloc, task)?;
        let moves = moves_of(alloc, task, &pattern)?;
        let goal = pattern.mask_of(task.publics, &task.goal_pub, &task.goal_priv);
        let table = settled(alloc, pattern.len(), moves.as_slice(), goal)?;
        let facts = pattern.into_facts();
        Ok(Pdb {
            publics: task.publics,
            facts,
            table,
        })
    }

    fn value(&mut self, publics: &Bits, privates: &Bits) -> Result<Option<u64>, OutOfMemory> {
        let mask = mask_of(self.facts.as_slice(), self.publics, publics, privates);
        let number = self.table[mask as usize];
        if number < u64::MAX {
            Ok(Some(number))
        } else {
            Ok(None)
        }
    }

    ghost small = { value_is_small };

    ghost dead = { λ t p q _ e plan. value_is_dead t p q plan e };

    ghost admissible = { λ t p q _ plan. value_is_admissible t p q plan };
}
