//! The two sides of a cut, and the cut.

use crate::marks::Marks;
use std::alloc::Global;

/// The marks of the goal zone, of the near side and of facts that it is asked for, the facts of the zone, and the operators of
/// the cut, with what each costs before it is paid for. They keep their memory from round to round.
#[derive(Drop)]
pub(crate) struct Sides {
    pub(crate) zone: Marks,
    pub(crate) inside: Vec<u32>,
    pub(crate) near: Marks,
    pub(crate) asked: Marks,
    pub(crate) cut: Vec<u32>,
    pub(crate) costs: Vec<u64>,
}

impl Sides {
    /// For no facts.
    pub(crate) fn new(alloc: Global) -> Sides {
        Sides {
            zone: Marks::new(alloc),
            inside: Vec::new(alloc),
            near: Marks::new(alloc),
            asked: Marks::new(alloc),
            cut: Vec::new(alloc),
            costs: Vec::new(alloc),
        }
    }
}
