//! Rows of words, each once.

ghost use Rattle.std.specs.Prelude.{◌≡◌, ◌↔◌, ◌≤◌, ◌+◌, ◌-◌, ◌∷◌, ◌++◌, ◌<◌, ◌^◌, [], ℕ, IfNone, IfOk, IfSome, IsTrue, OnErr, OnOk, length, slice_range, take, vec_capacity, vec_len};
ghost use Rattle.mp_rows.specs.Chains.{places, AreChained};
ghost use Rattle.mp_rows.specs.Hashes.{hash_of};
ghost use Rattle.mp_rows.specs.RowFields.{row_of, rows_at, AreRows};
ghost use Rattle.mp_rows.specs.Apart.{row_at, AreApart, IsNew};

use crate::chains::{Link, chain, make_buckets, unchain};
use crate::hashes::{bucket_of, hash_of};
use mp_list::{OutOfMemory, to_u32};
use std::alloc::Global;
use std::marker::Model;

/// Different rows of words. A row's number is how many were there when it came. Contracts see the list of the rows.
#[derive(Drop)]
pub struct Rows {
    /// The words of all rows.
    words: Vec<u64>,
    /// Where the rows stand, by their numbers.
    links: Vec<Link>,
    /// For each bucket one more than the number of the last row in it, or 0.
    heads: Vec<u32>,
}

impl Model for Rows {
    ghost use Rattle.std.specs.Prelude.{ℕ, List};
    ghost use Rattle.mp_rows.specs.Chains.{places};
    ghost use Rattle.mp_rows.specs.RowFields.{rows_at, AreRows};

    ghost Value = { List (List ℕ) };

    ghost view = { λ r. rows_at r.words.items (places r.links.items) };

    ghost invariant = { λ r. AreRows r.words.items r.links.items r.heads.items };
}

impl Rows {
    /// No rows. Takes no memory.
    pub fn new(alloc: Global) -> Rows
        ensures { result ≡ [] }
    {
        Rows {
            words: Vec::new(alloc),
            links: Vec::new(alloc),
            heads: Vec::new(alloc),
        }
    }

    /// How many rows there are.
    pub fn len(&self) -> usize
        ensures len { result ≡ length self.now }
        ensures apart { AreApart self.now }
    {
        self.links.len()
    }

    /// The row of a number.
    pub fn row(&self, number: usize) -> &[u64]
        requires { number < length self.now }
        ensures { result.now ≡ row_at self.now number }
    {
        words_of(self.words.as_slice(), self.links[number])
    }

    /// The number of the row that consists of two parts: none exactly where it is not there. Takes no memory.
    // It is inlined, so that no loop is left over a part whose length the caller knows.
    #[inline(always)]
    pub fn find(&self, front: &[u64], back: &[u64]) -> Option<usize>
        ensures found { IfSome result (λ n. (n < length self.now) × (row_at self.now n ≡ front.now ++ back.now)) }
        ensures none { IfNone result (IsNew (front.now ++ back.now) self.now) }
    {
        find_row(
            self.words.as_slice(),
            self.links.as_slice(),
            self.heads.as_slice(),
            front,
            back,
        )
    }

    /// Adds a row that consists of two parts and is not there. For want of memory the rows stay as they were.
    // It is inlined as `find` is.
    #[inline(always)]
    pub fn push(&mut self, front: &[u64], back: &[u64]) -> Result<(), OutOfMemory>
        requires { IsNew (front.now ++ back.now) self.old }
        ensures pushed { OnOk result (self.new ≡ self.old ++ (front.now ++ back.now) ∷ []) }
        ensures err { OnErr result (self.new ≡ self.old) }
    {
        push_row(
            &mut self.words,
            &mut self.links,
            &mut self.heads,
            front,
            back,
        )
    }

    /// Takes the last row away, if there is one.
    pub fn pop(&mut self)
        ensures { self.new ≡ take (length self.old - 1) self.old }
    {
        pop_row(&self.words, &mut self.links, &mut self.heads)
    }
}

/// The words of a row.
fn words_of(words: &[u64], link: Link) -> &[u64]
    requires { (link.start ≤ link.end) × (link.end ≤ length words.now) }
    ensures { result.now ≡ slice_range words.now link.start link.end }
{
    &words[link.start as usize..link.end as usize]
}

/// Whether words are the same.
#[inline(always)]
fn are_equal(words: &[u64], others: &[u64]) -> bool
    ensures { IsTrue result ↔ (words.now ≡ others.now) }
{
    if words.len() != others.len() {
        return false;
    }
    for at in 0..words.len() {
        if words[at] != others[at] {
            return false;
        }
    }
    true
}

/// Whether a row consists of two parts.
#[inline(always)]
fn is_row(row: &[u64], front: &[u64], back: &[u64]) -> bool
    ensures { IsTrue result ↔ (row.now ≡ front.now ++ back.now) }
{
    if row.len() < front.len() {
        return false;
    }
    are_equal(&row[..front.len()], front) && are_equal(&row[front.len()..], back)
}

/// Whether the row of a link has a hash and consists of two parts.
#[inline(always)]
fn has_row(words: &[u64], link: Link, hash: u32, front: &[u64], back: &[u64]) -> bool
    requires within { (link.start ≤ link.end) × (link.end ≤ length words.now) }
    requires hashed { link.hash ≡ hash_of (slice_range words.now link.start link.end) }
    requires hash { hash ≡ hash_of (front.now ++ back.now) }
    ensures { IsTrue result ↔ (slice_range words.now link.start link.end ≡ front.now ++ back.now) }
{
    link.hash == hash && is_row(words_of(words, link), front, back)
}

/// The number of the row that consists of two parts.
#[inline(always)]
fn find_row(
    words: &[u64],
    links: &[Link],
    heads: &[u32],
    front: &[u64],
    back: &[u64],
) -> Option<usize>
    requires { AreRows words.now links.now heads.now }
    ensures found { IfSome result (λ n. (n < length links.now) × (row_of words.now links.now n ≡ front.now ++ back.now)) }
    ensures none { IfNone result ((n : ℕ) → n < length links.now → row_of words.now links.now n ≡ front.now ++ back.now → ⊥) }
{
    if heads.is_empty() {
        return None;
    }
    let hash = hash_of(front, back);
    let mut last = heads[bucket_of(hash, heads.len())];
    while last > 0 {
        let number = last as usize - 1;
        let link = links[number];
        if has_row(words, link, hash, front, back) {
            return Some(number);
        }
        last = link.before;
    }
    None
}

/// Where a row will stand that comes next, and its hash.
#[inline(always)]
fn next_link(words: &Vec<u64>, front: &[u64], back: &[u64]) -> Result<Link, OutOfMemory>
    ensures hash { IfOk result (λ link. link.hash ≡ hash_of (front.now ++ back.now)) }
    ensures start { IfOk result (λ link. link.start ≡ length words.now.items) }
    ensures end { IfOk result (λ link. link.end ≡ length words.now.items + length (front.now ++ back.now)) }
{
    let start = to_u32(words.len())?;
    let front_len = to_u32(front.len())?;
    let back_len = to_u32(back.len())?;
    let end = to_u32(start as usize + front_len as usize + back_len as usize)?;
    Ok(Link {
        hash: hash_of(front, back),
        before: 0,
        start,
        end,
    })
}

/// Sees to it that there is room for a row of so many words more.
fn make_room(
    words: &mut Vec<u64>,
    links: &mut Vec<Link>,
    heads: &mut Vec<u32>,
    more: usize,
) -> Result<(), OutOfMemory>
    requires { AreRows words.old.items links.old.items heads.old.items }
    ensures words { words.new.items ≡ words.old.items }
    ensures places { places links.new.items ≡ places links.old.items }
    ensures rows { AreRows words.new.items links.new.items heads.new.items }
    ensures some { OnOk result (0 < length heads.new.items) }
    ensures small { OnOk result (length links.new.items + 1 < 2 ^ 32) }
    ensures link { OnOk result (vec_len links.new < vec_capacity links.new) }
    ensures room { OnOk result (vec_len words.new + more ≤ vec_capacity words.new) }
{
    to_u32(links.len() + 2)?;
    make_buckets(heads, links)?;
    links.reserve(1)?;
    words.reserve(more)?;
    Ok(())
}

/// Puts words at the end of others, which have room for them.
#[inline(always)]
fn add_all(words: &mut Vec<u64>, more: &[u64])
    requires { vec_len words.old + length more.now ≤ vec_capacity words.old }
    ensures items { words.new.items ≡ words.old.items ++ more.now }
    ensures len { vec_len words.new ≡ vec_len words.old + length more.now }
    ensures capacity { vec_capacity words.old ≤ vec_capacity words.new }
{
    for word in more {
        words.push_reserved(*word);
    }
}

/// Puts a row at the end of the words, which have room for it.
#[inline(always)]
fn add_words(words: &mut Vec<u64>, front: &[u64], back: &[u64])
    requires { vec_len words.old + length (front.now ++ back.now) ≤ vec_capacity words.old }
    ensures { words.new.items ≡ words.old.items ++ (front.now ++ back.now) }
{
    add_all(words, front);
    add_all(words, back);
}

/// Adds a row, for which there is room.
#[inline(always)]
fn add_row(
    words: &mut Vec<u64>,
    links: &mut Vec<Link>,
    heads: &mut Vec<u32>,
    link: Link,
    front: &[u64],
    back: &[u64],
)
    requires rows { AreRows words.old.items links.old.items heads.old.items }
    requires new { (n : ℕ) → n < length links.old.items → row_of words.old.items links.old.items n ≡ front.now ++ back.now → ⊥ }
    requires hash { link.hash ≡ hash_of (front.now ++ back.now) }
    requires start { link.start ≡ length words.old.items }
    requires end { link.end ≡ length words.old.items + length (front.now ++ back.now) }
    requires some { 0 < length heads.old.items }
    requires small { length links.old.items + 1 < 2 ^ 32 }
    requires link { vec_len links.old < vec_capacity links.old }
    requires room { vec_len words.old + length (front.now ++ back.now) ≤ vec_capacity words.old }
    ensures rows { AreRows words.new.items links.new.items heads.new.items }
    ensures words { words.new.items ≡ words.old.items ++ (front.now ++ back.now) }
    ensures places { places links.new.items ≡ places links.old.items ++ (link.hash, (link.start, link.end)) ∷ [] }
{
    let number = links.len();
    add_words(words, front, back);
    links.push_reserved(link);
    chain(heads, links, number);
}

/// Adds a row that is not there.
#[inline(always)]
fn push_row(
    words: &mut Vec<u64>,
    links: &mut Vec<Link>,
    heads: &mut Vec<u32>,
    front: &[u64],
    back: &[u64],
) -> Result<(), OutOfMemory>
    requires rows { AreRows words.old.items links.old.items heads.old.items }
    requires new { IsNew (front.now ++ back.now) (rows_at words.old.items (places links.old.items)) }
    ensures rows { AreRows words.new.items links.new.items heads.new.items }
    ensures pushed { OnOk result (rows_at words.new.items (places links.new.items)
        ≡ rows_at words.old.items (places links.old.items) ++ (front.now ++ back.now) ∷ []) }
    ensures err { OnErr result (rows_at words.new.items (places links.new.items)
        ≡ rows_at words.old.items (places links.old.items)) }
{
    let link = next_link(words, front, back)?;
    let more = link.end as usize - link.start as usize;
    make_room(words, links, heads, more)?;
    add_row(words, links, heads, link, front, back);
    Ok(())
}

/// Takes the last row away, if there is one. Its words stay without use.
fn pop_row(words: &Vec<u64>, links: &mut Vec<Link>, heads: &mut Vec<u32>)
    requires { AreRows words.now.items links.old.items heads.old.items }
    ensures rows { AreRows words.now.items links.new.items heads.new.items }
    ensures popped { rows_at words.now.items (places links.new.items)
        ≡ take (length (rows_at words.now.items (places links.old.items)) - 1) (rows_at words.now.items (places links.old.items)) }
{
    if links.is_empty() {
        return;
    }
    let last = links.len() - 1;
    unchain(heads, links, last);
    links.truncate(last);
}
