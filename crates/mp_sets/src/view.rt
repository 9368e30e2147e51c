//! Sets of numbers whose words are lent.

ghost use Rattle.std.specs.Prelude.{◌≡◌, ℕ, ◌+◌, ◌<◌, ◌^◌, ◌↔◌, All, IsTrue, IfOk, IfSome, IfNone, slice_index};
ghost use Rattle.std.specs.FinSet as set;
ghost use Rattle.mp_sets.specs.Numbers.{AllBelow, IsLeastFrom, HasNoneFrom, holds, listed, numbers_below};
ghost use Rattle.mp_sets.specs.Words.{has_bit, words_for, ArePacked};
ghost use Rattle.mp_sets.specs.Compared.{binary};
ghost use Rattle.std.specs.Simd.Lanes.{number_l, digits_l};

use crate::fact_list::FactList;
use crate::words;
use mp_list::OutOfMemory;
use std::alloc::Global;
use std::marker::Model;

/// A set of numbers below a size whose words stand among others. Contracts see it as the size and the set.
#[derive(Drop)]
pub struct BitsView<'a> {
    alloc: Global,
    size: u32,
    /// As those of `Bits`.
    words: &'a [u64],
}

impl<'a> Model for BitsView<'a> {
    ghost use Rattle.mp_sets.specs.Numbers.{SizedSet, sized_set_code, numbers_below};
    ghost use Rattle.mp_sets.specs.Words.{has_bit, ArePacked};

    ghost Value = { SizedSet };

    ghost coded = { sized_set_code };

    ghost view = { λ b. record {
      size = b.size;
      members = numbers_below b.size (has_bit b.words.now);
    } };

    ghost invariant = { λ b. ArePacked b.size b.words.now };
}

impl<'a> BitsView<'a> {
    /// The set that words tell: as many as the numbers below the size need, in which no bit at or above it is set.
    pub fn new(alloc: Global, size: u32, words: &'a [u64]) -> BitsView<'a>
        requires { ArePacked size words.now }
        ensures { result ≡ record { size = size; members = numbers_below size (has_bit words.now) } }
    {
        BitsView { alloc, size, words }
    }

    /// The same set, with the same words lent.
    pub fn reborrow(&self) -> BitsView<'a>
        ensures { result ≡ self.now }
    {
        let words = self.words;
        BitsView::new(self.alloc, self.size, words)
    }

    /// The allocator for a set with words of its own.
    pub fn allocator(&self) -> Global {
        self.alloc
    }

    /// The size: all members are below it.
    pub fn size(&self) -> u32
        ensures size { result ≡ self.now.size }
        ensures below { AllBelow self.now.size self.now.members }
    {
        self.size
    }

    /// Whether a number is a member.
    pub fn contains(&self, x: u32) -> bool
        requires { x < self.now.size }
        ensures { result ≡ set.contains self.now.members x }
    {
        let words = self.words;
        (words[(x / 64) as usize] >> (x % 64)) & 1 == 1
    }

    /// Whether all numbers of a list are members.
    pub fn holds(&self, list: &FactList) -> bool
        requires { All (λ x. x < self.now.size) list.now }
        ensures { result ≡ holds self.now.members list.now }
    {
        for x in list.as_slice() {
            if !self.contains(*x) {
                return false;
            }
        }
        true
    }

    /// Whether the other set, which has the same size, has the same members.
    pub fn equal(&self, other: &BitsView<'_>) -> bool
        requires { self.now.size ≡ other.now.size }
        ensures { IsTrue result ↔ (self.now ≡ other.now) }
    {
        let words = self.words;
        let others = other.words;
        words::are_equal(words, others)
    }

    /// The least member at or above a number: none exactly where there is none. Takes no memory.
    pub fn least_from(&self, from: u32) -> Option<u32>
        ensures some { IfSome result (λ x. IsLeastFrom self.now.members from x) }
        ensures none { IfNone result (HasNoneFrom self.now.members from) }
        ensures next { IfSome result (λ x. (x < self.now.size) × (x + 1 < 2 ^ 32)) }
        ensures below { AllBelow self.now.size self.now.members }
    {
        if from >= self.size() {
            return None;
        }
        let x = words::first_from(self.words(), from)?;
        Some(x as u32)
    }

    /// The members, least one first.
    pub fn list(&self) -> Result<FactList, OutOfMemory>
        ensures members { IfOk result (λ list. list ≡ listed self.now) }
        ensures set { IfOk result (λ list. set.from_list list ≡ self.now.members) }
        ensures below { IfOk result (λ list. All (λ x. x < self.now.size) list) }
    {
        let mut list = FactList::new(self.alloc);
        let mut from = 0;
        while let Some(number) = self.least_from(from) {
            list.push(number)?;
            from = number + 1;
        }
        Ok(list)
    }

    /// The words.
    pub fn words(&self) -> &'a [u64]
        ensures packed { ArePacked self.now.size result.now }
        ensures bits { (x : ℕ) → set.contains self.now.members x ≡ has_bit result.now x }
        ensures number { number_l (2 ^ 64) result.now ≡ binary self.now.members }
        ensures digits { result.now
            ≡ digits_l (2 ^ 64) (words_for self.now.size) (binary self.now.members) }
        ensures set { record { size = self.now.size; members = numbers_below self.now.size (has_bit result.now) } ≡ self.now }
        ensures fits { (k : ℕ) → slice_index result.now k < 2 ^ 64 }
    {
        let words = self.words;
        words::have_64_bits(words);
        words
    }
}
