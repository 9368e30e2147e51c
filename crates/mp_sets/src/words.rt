//! Words of sets, compared with one another.

ghost use Rattle.std.specs.Prelude.{◌≡◌, ◌↔◌, ◌+◌, ◌*◌, ◌^◌, ◌<◌, ◌≤◌, ℕ, length, slice_index, true, false, IsTrue, IfSome, IfNone};
ghost use Rattle.std.specs.Ordering.{nat_cmp};
ghost use Rattle.std.specs.Simd.Lanes.{number_l};
ghost use Rattle.mp_sets.specs.Words.{has_bit, IsFirstFrom};

use std::cmp::Ordering;
use std::simd::prelude::*;

/// Words have 64 bits each.
pub(crate) fn have_64_bits(words: &[u64])
    ensures { (k : ℕ) → slice_index words.now k < 2 ^ 64 }
{
    let _ = words.len();
}

/// Whether two lists of equal length have the same bits.
pub(crate) fn are_equal(words: &[u64], others: &[u64]) -> bool
    requires { length words.now ≡ length others.now }
    ensures { IsTrue result ↔ ((x : ℕ) → has_bit words.now x ≡ has_bit others.now x) }
{
    let mut done = 0;
    while words.len() - done >= 8 {
        if !eight_are_equal(words, others, done) {
            return false;
        }
        done += 8;
    }
    for at in done..words.len() {
        if words[at] != others[at] {
            return false;
        }
    }
    true
}

/// Whether eight words from a place on have the same bits.
fn eight_are_equal(words: &[u64], others: &[u64], from: usize) -> bool
    requires length { length words.now ≡ length others.now }
    requires from { from + 8 ≤ length words.now }
    ensures { IsTrue result ↔ ((x : ℕ) → 64 * from ≤ x → x < 64 * (from + 8)
        → has_bit words.now x ≡ has_bit others.now x) }
{
    let differ = u64x8::from_slice(&words[from..]) ^ u64x8::from_slice(&others[from..]);
    differ.reduce_or() == 0
}

/// Whether each bit of a list is a bit of the other, which has the same length.
pub(crate) fn are_within(words: &[u64], others: &[u64]) -> bool
    requires { length words.now ≡ length others.now }
    ensures { IsTrue result
        ↔ ((x : ℕ) → IsTrue (has_bit words.now x) → IsTrue (has_bit others.now x)) }
{
    let mut done = 0;
    while words.len() - done >= 8 {
        if !eight_are_within(words, others, done) {
            return false;
        }
        done += 8;
    }
    for at in done..words.len() {
        if words[at] & !others[at] != 0 {
            return false;
        }
    }
    true
}

/// Whether each bit of eight words from a place on is a bit of the others there.
fn eight_are_within(words: &[u64], others: &[u64], from: usize) -> bool
    requires length { length words.now ≡ length others.now }
    requires from { from + 8 ≤ length words.now }
    ensures { IsTrue result ↔ ((x : ℕ) → 64 * from ≤ x → x < 64 * (from + 8)
        → IsTrue (has_bit words.now x) → IsTrue (has_bit others.now x)) }
{
    let more = u64x8::from_slice(&words[from..]) & !u64x8::from_slice(&others[from..]);
    more.reduce_or() == 0
}

/// Compares two lists of equal length as numbers in base 2^64, whose least digit is the first word.
pub(crate) fn compare(words: &[u64], others: &[u64]) -> Ordering
    requires { length words.now ≡ length others.now }
    ensures { result ≡ nat_cmp (number_l (2 ^ 64) words.now) (number_l (2 ^ 64) others.now) }
{
    let mut at = words.len();
    while at > 0 {
        at -= 1;
        if words[at] != others[at] {
            return words[at].cmp(&others[at]);
        }
    }
    Ordering::Equal
}

/// The first bit that is set at or above a place: none where there is none.
pub(crate) fn first_from(words: &[u64], from: u32) -> Option<usize>
    requires { length words.now ≤ 2 ^ 26 }
    ensures some { IfSome result (λ x. IsFirstFrom words.now from x) }
    ensures none { IfNone result ((x : ℕ) → from ≤ x → has_bit words.now x ≡ false) }
{
    let first = (from / 64) as usize;
    if first >= words.len() {
        return None;
    }
    let rest = words[first] >> (from % 64);
    if rest != 0 {
        return Some(from as usize + rest.trailing_zeros() as usize);
    }
    for at in first + 1..words.len() {
        if words[at] != 0 {
            return Some(64 * at + words[at].trailing_zeros() as usize);
        }
    }
    None
}
