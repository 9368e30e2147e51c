//! Sets of numbers below a size.

ghost use Rattle.std.specs.Prelude.{◌≡◌, ℕ, ◌+◌, ◌<◌, ◌^◌, ◌↔◌, All, IsTrue, IfOk, IfSome, IfNone, slice_index};
ghost use Rattle.std.specs.FinSet as set;
ghost use Rattle.mp_sets.specs.Numbers.{AllBelow, IsLeastFrom, HasNoneFrom, holds, after, listed, numbers_below};
ghost use Rattle.mp_sets.specs.Words.{has_bit, words_for, ArePacked};
ghost use Rattle.mp_sets.specs.Compared.{binary};
ghost use Rattle.std.specs.Simd.Lanes.{number_l, digits_l};

use crate::fact_list::FactList;
use crate::view::BitsView;
use crate::words;
use mp_list::{Copied, OutOfMemory};
use std::alloc::Global;
use std::marker::Model;

/// A set of numbers below a size, which stays as it was made. Contracts see it as the size and the set.
#[derive(Debug, Drop)]
pub struct Bits {
    size: u32,
    /// As many words as the numbers below the size need: bit x % 64 of word x / 64 says whether x is a
    /// member, and no bit at or above the size is set.
    words: Vec<u64>,
}

impl Model for Bits {
    ghost use Rattle.mp_sets.specs.Numbers.{SizedSet, sized_set_code, numbers_below};
    ghost use Rattle.mp_sets.specs.Words.{has_bit, ArePacked};

    ghost Value = { SizedSet };

    ghost coded = { sized_set_code };

    ghost view = { λ b. record {
      size = b.size;
      members = numbers_below b.size (has_bit b.words.items);
    } };

    ghost invariant = { λ b. ArePacked b.size b.words.items };
}

impl Bits {
    /// The empty set of numbers below a size.
    pub fn new(alloc: Global, size: u32) -> Result<Bits, OutOfMemory>
        ensures { IfOk result (λ made. made ≡ record { size = size; members = set.empty }) }
    {
        Ok(Bits {
            size,
            words: vec![in alloc; 0u64; (size as usize + 63) / 64]?,
        })
    }

    /// The set of the numbers of a list, which are below a size.
    pub fn from_list(alloc: Global, size: u32, list: &FactList) -> Result<Bits, OutOfMemory>
        requires { All (λ x. x < size) list.now }
        ensures { IfOk result (λ made. made
            ≡ record { size = size; members = set.from_list list.now }) }
    {
        let mut made = Bits::new(alloc, size)?;
        made.insert_all(list);
        Ok(made)
    }

    /// Takes all members out. Takes no memory.
    pub fn clear(&mut self)
        ensures { self.new ≡ record { size = self.old.size; members = set.empty } }
    {
        self.words.fill(0);
    }

    /// Makes this set equal to another one of its size. Takes no memory.
    pub fn copy_from(&mut self, other: &Bits)
        requires { self.old.size ≡ other.now.size }
        ensures { self.new ≡ other.now }
    {
        self.words
            .as_mut_slice()
            .copy_from_slice(other.words.as_slice());
    }

    /// Makes this set equal to another one of its size, whose words are lent. Takes no memory.
    pub fn copy_from_view(&mut self, other: &BitsView<'_>)
        requires { self.old.size ≡ other.now.size }
        ensures { self.new ≡ other.now }
    {
        self.words.as_mut_slice().copy_from_slice(other.words());
    }

    /// A set whose words are lent, with words of its own.
    pub fn from_view(view: &BitsView<'_>) -> Result<Bits, OutOfMemory>
        ensures { IfOk result (λ made. made ≡ view.now) }
    {
        Ok(Bits {
            size: view.size(),
            words: Vec::from_slice(view.allocator(), view.words())?,
        })
    }

    /// This set, with its words lent.
    pub fn view(&self) -> BitsView<'_>
        ensures { result ≡ self.now }
    {
        BitsView::new(*self.words.allocator(), self.size, self.words.as_slice())
    }

    /// The size: all members are below it.
    pub fn size(&self) -> u32
        ensures size { result ≡ self.now.size }
        ensures below { AllBelow self.now.size self.now.members }
    {
        self.size
    }

    /// Makes a number a member, if it is none yet.
    pub fn insert(&mut self, x: u32)
        requires { x < self.old.size }
        ensures { self.new ≡ record self.old { members = set.insert self.old.members x } }
    {
        self.words[(x / 64) as usize] |= 1 << (x % 64);
    }

    /// Takes a number out, if it is a member.
    pub fn remove(&mut self, x: u32)
        requires { x < self.old.size }
        ensures { self.new ≡ record self.old { members = set.remove self.old.members x } }
    {
        self.words[(x / 64) as usize] &= !(1 << (x % 64));
    }

    /// Whether a number is a member.
    pub fn contains(&self, x: u32) -> bool
        requires { x < self.now.size }
        ensures { result ≡ set.contains self.now.members x }
    {
        self.view().contains(x)
    }

    /// Whether all numbers of a list are members.
    pub fn holds(&self, list: &FactList) -> bool
        requires { All (λ x. x < self.now.size) list.now }
        ensures { result ≡ holds self.now.members list.now }
    {
        self.view().holds(list)
    }

    /// Takes the deletes out and then makes the adds members, so that a number in both is a member.
    pub fn apply(&mut self, del: &FactList, add: &FactList)
        requires deletes { All (λ x. x < self.old.size) del.now }
        requires adds { All (λ x. x < self.old.size) add.now }
        ensures { self.new ≡ record self.old { members = after self.old.members del.now add.now } }
    {
        self.remove_all(del);
        self.insert_all(add);
    }

    fn remove_all(&mut self, list: &FactList)
        requires { All (λ x. x < self.old.size) list.now }
        ensures { self.new
            ≡ record self.old { members = set.difference self.old.members (set.from_list list.now) } }
    {
        for x in list.as_slice() {
            self.remove(*x);
        }
    }

    fn insert_all(&mut self, list: &FactList)
        requires { All (λ x. x < self.old.size) list.now }
        ensures { self.new
            ≡ record self.old { members = set.union self.old.members (set.from_list list.now) } }
    {
        for x in list.as_slice() {
            self.insert(*x);
        }
    }

    /// Whether all members are members of the other set, which has the same size.
    pub fn is_subset(&self, other: &Bits) -> bool
        requires { self.now.size ≡ other.now.size }
        ensures { result ≡ set.is_subset self.now.members other.now.members }
    {
        words::are_within(self.words.as_slice(), other.words.as_slice())
    }

    /// Whether the other set, which has the same size, has the same members.
    pub fn equal(&self, other: &Bits) -> bool
        requires { self.now.size ≡ other.now.size }
        ensures { IsTrue result ↔ (self.now ≡ other.now) }
    {
        self.view().equal(&other.view())
    }

    /// The least member at or above a number: none exactly where there is none. Takes no memory.
    pub fn least_from(&self, from: u32) -> Option<u32>
        ensures some { IfSome result (λ x. IsLeastFrom self.now.members from x) }
        ensures none { IfNone result (HasNoneFrom self.now.members from) }
        ensures next { IfSome result (λ x. (x < self.now.size) × (x + 1 < 2 ^ 32)) }
        ensures below { AllBelow self.now.size self.now.members }
    {
        self.view().least_from(from)
    }

    /// The members, least one first.
    pub fn list(&self) -> Result<FactList, OutOfMemory>
        ensures members { IfOk result (λ list. list ≡ listed self.now) }
        ensures set { IfOk result (λ list. set.from_list list ≡ self.now.members) }
        ensures below { IfOk result (λ list. All (λ x. x < self.now.size) list) }
    {
        self.view().list()
    }
}

impl Bits {
    /// The words: as many as the numbers below the size need, of which bit x % 64 of word x / 64 says whether x is a member.
    pub fn words(&self) -> &[u64]
        ensures packed { ArePacked self.now.size result.now }
        ensures bits { (x : ℕ) → set.contains self.now.members x ≡ has_bit result.now x }
        ensures number { number_l (2 ^ 64) result.now ≡ binary self.now.members }
        ensures digits { result.now
            ≡ digits_l (2 ^ 64) (words_for self.now.size) (binary self.now.members) }
        ensures set { record { size = self.now.size; members = numbers_below self.now.size (has_bit result.now) } ≡ self.now }
        ensures fits { (k : ℕ) → slice_index result.now k < 2 ^ 64 }
    {
        let words = self.words.as_slice();
        words::have_64_bits(words);
        words
    }
}

impl Copied for Bits {
    fn copy(&self) -> Result<Bits, OutOfMemory> {
        let alloc = *self.words.allocator();
        Ok(Bits {
            size: self.size,
            words: Vec::from_slice(alloc, self.words.as_slice())?,
        })
    }
}
