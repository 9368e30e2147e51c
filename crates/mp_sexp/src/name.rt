//! Names: words as they count, with their letters folded.

ghost use Rattle.std.specs.Prelude.{◌≡◌, ◌++◌, ◌∷◌, ◌↔◌, [], length, slice_get, ◌≤◌, IfOk, OnOk, OnErr, IsTrue};
ghost use Rattle.std.specs.Prelude.{Some};
ghost use Rattle.std.specs.Option.{option_copied};
ghost use Rattle.std.specs.Cmp.{partial_equiv_from_equiv};
ghost use Rattle.std.specs.Cmp.Lexicographic.{nat_list_eq_equiv, nat_list_cmp_total, texts_po, texts_ties};
ghost use Rattle.std.specs.Cmp.Rules.{hashing};
ghost use Rattle.std.proofs.Common.{refl, rules};
ghost use Rattle.mp_sexp.specs.Bytes.{folded};
ghost use Rattle.mp_sexp.specs.Name.{IsCapital, HasNoCapitals, same_bytes, byte_order};

use crate::bytes::{fold, is_same};
use crate::short::{MOST, Short};
use mp_list::{Copied, List, OutOfMemory};
use std::alloc::Global;
use std::cmp::Ordering;
use std::fmt;
use std::hash::{Hash, Hasher};
use std::marker::Model;

/// Where a name keeps its bytes.
#[derive(Drop)]
pub(crate) enum Data {
    /// In the name itself.
    Few(Short),
    /// In memory of their own.
    Many(Box<Vec<u8>>),
}

/// A word's bytes with the letters A to Z folded to a to z, so that two names are the same exactly where
/// their bytes are. Contracts see it as the list of its bytes. A name of at most 22 bytes takes no memory
/// beside itself.
pub struct Name {
    pub(crate) data: Data,
}

impl Drop for Name {
    fn drop(self) {
        let Name { data: _ } = self;
    }
}

/// A list of names.
pub type NameList = List<Name>;

impl Model for Name {
    ghost use Rattle.std.specs.Prelude.{List, ℕ};
    ghost use Rattle.mp_sexp.specs.Data.{bytes_of};
    ghost use Rattle.mp_sexp.specs.Bytes.{folded};
    ghost use Rattle.mp_sexp.specs.Name.{HasNoCapitals};

    ghost Value = { List ℕ };

    ghost view = { λ n. bytes_of n.data };

    ghost invariant = { λ n. HasNoCapitals (bytes_of n.data) };
}

/// A name of these bytes in memory of their own.
fn many(bytes: Vec<u8>) -> Result<Name, OutOfMemory>
    requires { HasNoCapitals bytes.items }
    ensures { IfOk result (λ name. name ≡ bytes.items) }
{
    let alloc = *bytes.allocator();
    Ok(Name {
        data: Data::Many(Box::new(alloc, bytes)?),
    })
}

/// These bytes, folded, in memory of their own.
fn folded_bytes(alloc: Global, bytes: &[u8]) -> Result<Vec<u8>, OutOfMemory>
    ensures value { IfOk result (λ v. v.items ≡ folded bytes.now) }
    ensures small { IfOk result (λ v. HasNoCapitals v.items) }
{
    let mut out = Vec::with_capacity(alloc, bytes.len())?;
    for byte in bytes {
        out.push(fold(*byte))?;
    }
    Ok(out)
}

impl Name {
    /// The empty name.
    pub fn new(alloc: Global) -> Name
        ensures { result ≡ [] }
    {
        Name {
            data: Data::Few(Short::new(alloc)),
        }
    }

    /// The name that these bytes spell: their capital letters are folded. Refuses only for want of memory.
    pub fn folded(alloc: Global, bytes: &[u8]) -> Result<Name, OutOfMemory>
        ensures { IfOk result (λ name. name ≡ folded bytes.now) }
    {
        if bytes.len() <= MOST {
            return Ok(Name {
                data: Data::Few(Short::fold_from(alloc, bytes)),
            });
        }
        many(folded_bytes(alloc, bytes)?)
    }

    /// Adds a byte at the end. For want of memory the name stays as it was.
    pub fn push(&mut self, byte: u8) -> Result<(), OutOfMemory>
        requires { ¬ IsCapital byte }
        ensures ok { OnOk result (self.new ≡ self.old ++ byte ∷ []) }
        ensures err { OnErr result (self.new ≡ self.old) }
    {
        match &mut self.data {
            Data::Few(short) => {
                if short.has_room() {
                    short.push(byte);
                } else {
                    let mut bytes = Vec::from_slice(short.allocator(), short.as_slice())?;
                    bytes.push(byte)?;
                    *self = many(bytes)?;
                }
            }
            Data::Many(bytes) => bytes.push(byte)?,
        }
        Ok(())
    }

    /// The number of bytes.
    pub fn len(&self) -> usize
        ensures { result ≡ length self.now }
    {
        self.as_slice().len()
    }

    /// The byte at a place, counted from 0: none exactly where the name is not longer than that.
    pub fn get(&self, at: usize) -> Option<&u8>
        ensures { option_copied result ≡ slice_get self.now at }
    {
        self.as_slice().get(at)
    }

    /// The bytes, which hold no capital letter.
    pub fn as_slice(&self) -> &[u8]
        ensures bytes { result.now ≡ self.now }
        ensures folded { HasNoCapitals self.now }
    {
        match &self.data {
            Data::Few(short) => short.as_slice(),
            Data::Many(bytes) => bytes.as_slice(),
        }
    }

    /// Whether the name is spelled by these bytes.
    pub fn is(&self, bytes: &[u8]) -> bool
        ensures { IsTrue result ↔ (self.now ≡ bytes.now) }
    {
        self.as_slice() == bytes
    }
}

impl Copied for Name {
    fn copy(&self) -> Result<Name, OutOfMemory> {
        match &self.data {
            Data::Few(short) => Ok(Name {
                data: Data::Few(short.same()),
            }),
            Data::Many(bytes) => many(Vec::from_slice(*bytes.allocator(), bytes.as_slice())?),
        }
    }
}

/// Names are the same exactly where their bytes are.
impl PartialEq for Name {
    ghost eq = { same_bytes };

    ghost laws = { partial_equiv_from_equiv nat_list_eq_equiv };

    fn eq(&self, other: &Name) -> bool {
        is_same(self.as_slice(), other.as_slice())
    }
}

impl Eq for Name {
    ghost laws = { nat_list_eq_equiv };
}

/// Names are ordered as their bytes are: by the first that differs, and else the shorter one first.
impl PartialOrd for Name {
    ghost partial_cmp = { λ a b. Some (byte_order a b) };

    ghost laws = { texts_po };

    fn partial_cmp(&self, other: &Name) -> Option<Ordering> {
        Some(self.cmp(other))
    }
}

impl Ord for Name {
    ghost cmp = { byte_order };

    ghost total = { nat_list_cmp_total };

    ghost matches_partial_cmp = { λ _ _. refl };

    ghost matches_eq = { texts_ties };

    fn cmp(&self, other: &Name) -> Ordering {
        self.as_slice().cmp(other.as_slice())
    }
}

/// What is hashed are the bytes, as one piece, so that their number is not hashed beside them.
impl Hash for Name {
    ghost hash_input = { λ n. n ∷ [] };

    ghost respects_eq = { Prim.search (hashing, rules) };

    fn hash<H: Hasher>(&self, state: &mut H) {
        state.write(self.as_slice());
    }
}

impl fmt::Debug for Name {
    fn fmt<W: fmt::Write>(&self, f: &mut fmt::Formatter<W>) -> fmt::Result {
        f.debug_list().entries(self.as_slice()).finish()
    }
}
