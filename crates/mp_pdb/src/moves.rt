//! Abstract operators as moves between sets of facts of a pattern.

ghost use Rattle.std.specs.Prelude.{◌≡◌, IsTrue, ◌↔◌};

/// What an operator needs, adds and deletes of a pattern, each as a set whose bit i stands for the pattern's fact i, and
/// what it costs.
#[derive(Clone, Copy)]
pub(crate) struct Move {
    pub(crate) pre: u16,
    pub(crate) add: u16,
    pub(crate) del: u16,
    pub(crate) cost: u64,
}

impl Move {
    ghost use Rattle.mp_pdb.specs.Moves.{IsIdle, IsLike, after_move, has_all};

    /// The set that it leads to.
    pub(crate) fn after(&self, mask: u16) -> u16
        ensures { result ≡ after_move self.now mask }
    {
        (mask & !self.del) | self.add
    }

    /// Whether it changes nothing, as it adds only what it needs and deletes only what it adds.
    pub(crate) fn is_idle(&self) -> bool
        ensures { IsTrue result ↔ IsIdle self.now }
    {
        self.pre & self.add == self.add && self.add & self.del == self.del
    }

    /// Whether another move has the same sets.
    pub(crate) fn is_like(&self, other: &Move) -> bool
        ensures { IsTrue result ↔ IsLike self.now other.now }
    {
        self.pre == other.pre && self.add == other.add && self.del == other.del
    }
}
