//! The bytes of a short name, in the name itself.

ghost use Rattle.std.specs.Prelude.{◌≡◌, ◌++◌, ◌∷◌, ◌<◌, ◌≤◌, ◌↔◌, IsTrue, [], length};
ghost use Rattle.mp_sexp.specs.Bytes.{folded};
ghost use Rattle.mp_sexp.specs.Name.{HasNoCapitals};

use crate::bytes::fold;
use std::alloc::Global;
use std::marker::Model;

/// The most bytes of a short name: with them, a length and a tag a name fills three machine words.
pub(crate) const MOST: usize = 22;

/// At most 22 bytes. Contracts see it as their list.
#[derive(Drop)]
pub(crate) struct Short {
    len: u8,
    bytes: [u8; 22],
    /// What gives memory to a name that grows longer.
    alloc: Global,
}

impl Model for Short {
    ghost use Rattle.std.specs.Prelude.{List, ℕ, ◌≤◌, take};

    ghost Value = { List ℕ };

    ghost view = { λ s. take s.len s.bytes };

    ghost invariant = { λ s. s.len ≤ 22 };
}

impl Short {
    /// No bytes.
    pub(crate) fn new(alloc: Global) -> Short
        ensures { result ≡ [] }
    {
        Short {
            len: 0,
            bytes: [0; 22],
            alloc,
        }
    }

    /// These bytes, folded. They go to the places that they have in the text, so that no length is counted up
    /// beside them.
    pub(crate) fn fold_from(alloc: Global, bytes: &[u8]) -> Short
        requires { length bytes.now ≤ 22 }
        ensures value { result ≡ folded bytes.now }
        ensures small { HasNoCapitals result }
    {
        let mut room = [0; 22];
        for (at, byte) in bytes.iter().enumerate() {
            room[at] = fold(*byte);
        }
        Short {
            len: bytes.len() as u8,
            bytes: room,
            alloc,
        }
    }

    /// Whether one more byte has room.
    pub(crate) fn has_room(&self) -> bool
        ensures { IsTrue result ↔ (length self.now < 22) }
    {
        (self.len as usize) < MOST
    }

    /// Adds a byte at the end.
    pub(crate) fn push(&mut self, byte: u8)
        requires { length self.old < 22 }
        ensures { self.new ≡ self.old ++ byte ∷ [] }
    {
        let len = self.len as usize;
        self.bytes[len] = byte;
        self.len += 1;
    }

    /// The bytes.
    pub(crate) fn as_slice(&self) -> &[u8]
        ensures value { result.now ≡ self.now }
        ensures few { length self.now ≤ 22 }
    {
        &self.bytes[..self.len as usize]
    }

    /// The same bytes.
    pub(crate) fn same(&self) -> Short
        ensures { result ≡ self.now }
    {
        Short {
            len: self.len,
            bytes: self.bytes,
            alloc: self.alloc,
        }
    }

    pub(crate) fn allocator(&self) -> Global {
        self.alloc
    }
}
