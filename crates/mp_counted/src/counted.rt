//! A heuristic that tells how often it is asked.

ghost use Rattle.std.specs.Prelude.{IfOk};

use mp_list::OutOfMemory;
use mp_sets::Bits;
use mp_task::{Heuristic, Task};
use std::alloc::Global;
use std::cell::Cell;
use std::rc::Rc;

/// How often a heuristic was asked, for whoever holds a copy.
pub type Count = Rc<Cell<u64>>;

/// A heuristic with a count of how often it was asked. Its values are those of the heuristic.
#[derive(Drop)]
pub struct Counted<H: Heuristic> {
    inner: H,
    asked: Count,
}

impl<H: Heuristic> Heuristic for Counted<H> {
    ghost is_for = { λ c t. H.is_for c.inner t };

    ghost value = { H.value };

    fn make(alloc: Global, task: &Task) -> Result<Counted<H>, OutOfMemory> {
        let asked = Rc::new(alloc, Cell::new(0))?;
        with_count(alloc, task, asked)
    }

    fn value(&mut self, publics: &Bits, privates: &Bits) -> Result<Option<u64>, OutOfMemory> {
        self.asked.set(self.asked.get().saturating_add(1));
        self.inner.value(publics, privates)
    }

    ghost small = { H.small };

    ghost dead = { H.dead };

    ghost admissible = { H.admissible };
}

/// A heuristic for a task, which tells this count when it is asked. Refuses only for want of memory.
pub(crate) fn with_count<H: Heuristic>(
    alloc: Global,
    task: &Task,
    asked: Count,
) -> Result<Counted<H>, OutOfMemory>
    ensures { IfOk result (λ made. H.is_for made.inner task.now) }
{
    let inner = H::make(alloc, task)?;
    Ok(Counted { inner, asked })
}
