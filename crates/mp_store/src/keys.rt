//! The keys of a store, each once.

ghost use Rattle.std.specs.Prelude.{◌≡◌, ◌↔◌, ◌≤◌, ◌+◌, ◌-◌, ◌∷◌, ◌++◌, ◌<◌, ◌^◌, [], ℕ, IfNone, IfOk, IfSome, IsTrue, OnErr, OnOk, length, take};
ghost use Rattle.mp_rows.specs.Apart.{row_at, AreOnce, IsNew};
ghost use Rattle.mp_store.specs.KeyRows.{key_at, key_in, keys_at, no_key, place_in, tags_at, AreKeys, AreTags, HasGrown, IsKeyRow};
ghost use Rattle.mp_store.specs.Views.{seen_key};

use crate::entry::KeyView;
use crate::key::Key;
use indexmap::IndexSet;
use mp_list::{Copied, OutOfMemory};
use mp_rows::Rows;
use mp_sets::{BitsView, Tag, Tags};
use std::alloc::Global;
use std::marker::Model;

/// Different keys. The place of a key is how many were there when it came. Contracts see the list of them.
#[derive(Drop)]
pub(crate) struct Keys {
    alloc: Global,
    /// Each list of tags that a key has, once.
    tags: IndexSet<Tags>,
    /// The place where tags are looked for first.
    near: usize,
    /// For each key the size of its public facts, the place of its tags, the index of its own set, and the words of its
    /// public facts.
    rows: Rows,
}

impl Model for Keys {
    ghost use Rattle.std.specs.Prelude.{List};
    ghost use Rattle.mp_store.specs.declared.key.Key.{Key};

    ghost Value = { List Key };

    ghost use Rattle.std.specs.Coded.{codes};
    ghost use Rattle.mp_store.specs.contracts.key.Key.{the_row};

    ghost coded = { Prim.hlevel (codes, the_row.coded) };

    ghost use Rattle.mp_store.specs.KeyRows.{keys_at, AreKeys};

    ghost view = { λ k. keys_at k.tags.keys k.rows };

    ghost invariant = { λ k. AreKeys k.tags.keys k.rows };
}

impl Keys {
    /// No keys. Takes no memory.
    pub(crate) fn new(alloc: Global) -> Keys
        ensures { result ≡ [] }
    {
        Keys {
            alloc,
            tags: IndexSet::new(alloc),
            near: 0,
            rows: Rows::new(alloc),
        }
    }

    /// The place of a key: none exactly where it is not there. Takes no memory.
    pub(crate) fn find(&self, key: &Key) -> Option<usize>
        ensures found { IfSome result (λ n. (n < length self.now) × (key_at self.now n ≡ key.now)) }
        ensures none { IfNone result ((n : ℕ) → n < length self.now → key_at self.now n ≡ key.now → ⊥) }
    {
        find_key(&self.tags, self.near, &self.rows, key)
    }

    /// The key at a place.
    pub(crate) fn key(&self, place: usize) -> KeyView<'_>
        requires { place < length self.now }
        ensures { seen_key result ≡ key_at self.now place }
    {
        let row = self.rows.row(place);
        view_of(self.alloc, self.tags.as_slice(), row)
    }

    /// From now on tags are looked for first where those of the key at a place are.
    pub(crate) fn aim(&mut self, place: usize)
        requires { place < length self.old }
        ensures { self.new ≡ self.old }
    {
        self.near = place_in(self.rows.row(place));
    }

    /// Adds a key that is not there. For want of memory the keys stay as they were.
    pub(crate) fn push(&mut self, key: &Key) -> Result<(), OutOfMemory>
        requires { (n : ℕ) → n < length self.old → key_at self.old n ≡ key.now → ⊥ }
        ensures pushed { OnOk result (self.new ≡ self.old ++ key.now ∷ []) }
        ensures err { OnErr result (self.new ≡ self.old) }
        ensures once { AreOnce no_key self.new }
    {
        push_key(&mut self.tags, self.near, &mut self.rows, key)
    }

    /// Takes the last key away, if there is one.
    pub(crate) fn pop(&mut self)
        ensures popped { self.new ≡ take (length self.old - 1) self.old }
        ensures once { AreOnce no_key self.new }
    {
        self.rows.pop();
    }
}

/// Whether two lists of tags are the same.
#[inline(always)]
fn are_same(tags: &[Tag], others: &[Tag]) -> bool
    ensures { IsTrue result ↔ (tags.now ≡ others.now) }
{
    if tags.len() != others.len() {
        return false;
    }
    for at in 0..tags.len() {
        if tags[at] != others[at] {
            return false;
        }
    }
    true
}

/// Whether tags are at a place.
#[inline(always)]
fn are_at(tags: &IndexSet<Tags>, place: usize, sought: &Tags) -> bool
    ensures { IsTrue result → (place < length tags.now.keys) × (tags_at tags.now.keys place ≡ sought.now) }
{
    match tags.get_index(place) {
        Some(there) => are_same(sought.as_slice(), there.as_slice()),
        None => false,
    }
}

/// The place of tags: none exactly where they are not there.
// It is not inlined, since most tags are found near the place where they are looked for first.
#[inline(never)]
fn find_elsewhere(tags: &IndexSet<Tags>, sought: &Tags) -> Option<usize>
    ensures found { IfSome result (λ n. (n < length tags.now.keys) × (tags_at tags.now.keys n ≡ sought.now)) }
    ensures none { IfNone result ((n : ℕ) → n < length tags.now.keys → tags_at tags.now.keys n ≡ sought.now → ⊥) }
{
    tags.get_index_of(sought)
}

/// The place of tags, which are looked for at a place first: none exactly where they are not there.
#[inline(always)]
fn find_tags(tags: &IndexSet<Tags>, near: usize, sought: &Tags) -> Option<usize>
    ensures found { IfSome result (λ n. (n < length tags.now.keys) × (tags_at tags.now.keys n ≡ sought.now)) }
    ensures none { IfNone result ((n : ℕ) → n < length tags.now.keys → tags_at tags.now.keys n ≡ sought.now → ⊥) }
{
    if are_at(tags, near, sought) {
        return Some(near);
    }
    find_elsewhere(tags, sought)
}

/// Adds tags that are not there.
fn add_tags(tags: &mut IndexSet<Tags>, new: &Tags) -> Result<(), OutOfMemory>
    requires { (n : ℕ) → n < length tags.old.keys → tags_at tags.old.keys n ≡ new.now → ⊥ }
    ensures added { OnOk result (tags.new.keys ≡ tags.old.keys ++ new.now ∷ []) }
    ensures err { OnErr result (tags.new.keys ≡ tags.old.keys) }
{
    let copy = new.copy()?;
    tags.insert(copy)?;
    Ok(())
}

/// The place of tags that are not there, and are added.
fn add_place(tags: &mut IndexSet<Tags>, new: &Tags) -> Result<usize, OutOfMemory>
    requires tags { AreTags tags.old.keys }
    requires new { (n : ℕ) → n < length tags.old.keys → tags_at tags.old.keys n ≡ new.now → ⊥ }
    ensures place { IfOk result (λ n. (n < length tags.new.keys) × (tags_at tags.new.keys n ≡ new.now)) }
    ensures tags { AreTags tags.new.keys }
    ensures grown { HasGrown tags.old.keys tags.new.keys }
{
    let place = tags.len();
    add_tags(tags, new)?;
    Ok(place)
}

/// The place of tags, which are looked for at a place first, and added if they are not there.
fn place_of_tags(
    tags: &mut IndexSet<Tags>,
    near: usize,
    sought: &Tags,
) -> Result<usize, OutOfMemory>
    requires { AreTags tags.old.keys }
    ensures place { IfOk result (λ n. (n < length tags.new.keys) × (tags_at tags.new.keys n ≡ sought.now)) }
    ensures tags { AreTags tags.new.keys }
    ensures grown { HasGrown tags.old.keys tags.new.keys }
{
    match find_tags(tags, near, sought) {
        Some(place) => Ok(place),
        None => add_place(tags, sought),
    }
}

/// The size of a key's public facts.
fn size_of(key: &Key) -> u32
    ensures size { result ≡ key.now.publics.size }
    ensures small { result < 2 ^ 32 }
{
    key.publics.size()
}

/// The number of a row.
// It is not inlined, since the look-up itself is, and there are several callers.
#[inline(never)]
fn find_row(rows: &Rows, size: u32, place: usize, mine: u64, words: &[u64]) -> Option<usize>
    ensures found { IfSome result (λ n. (n < length rows.now)
        × (row_at rows.now n ≡ size ∷ place ∷ mine ∷ words.now)) }
    ensures none { IfNone result (IsNew (size ∷ place ∷ mine ∷ words.now) rows.now) }
{
    rows.find(&[size as u64, place as u64, mine], words)
}

/// The place of a key, whose tags are looked for at a place first.
fn find_key(tags: &IndexSet<Tags>, near: usize, rows: &Rows, key: &Key) -> Option<usize>
    requires { AreKeys tags.now.keys rows.now }
    ensures found { IfSome result (λ n. (n < length (keys_at tags.now.keys rows.now))
        × (key_at (keys_at tags.now.keys rows.now) n ≡ key.now)) }
    ensures none { IfNone result ((n : ℕ) → n < length (keys_at tags.now.keys rows.now)
        → key_at (keys_at tags.now.keys rows.now) n ≡ key.now → ⊥) }
{
    let Some(place) = find_tags(tags, near, &key.tags) else {
        return None;
    };
    find_row(rows, size_of(key), place, key.mine, key.publics.words())
}

/// Adds a row that is not there.
// It is not inlined, since the growth of the rows is.
#[inline(never)]
fn push_row(
    rows: &mut Rows,
    size: u32,
    place: usize,
    mine: u64,
    words: &[u64],
) -> Result<(), OutOfMemory>
    requires { IsNew (size ∷ place ∷ mine ∷ words.now) rows.old }
    ensures pushed { OnOk result (rows.new ≡ rows.old ++ (size ∷ place ∷ mine ∷ words.now) ∷ []) }
    ensures err { OnErr result (rows.new ≡ rows.old) }
{
    rows.push(&[size as u64, place as u64, mine], words)
}

/// Adds a key that is not there, whose tags are looked for at a place first.
fn push_key(
    tags: &mut IndexSet<Tags>,
    near: usize,
    rows: &mut Rows,
    key: &Key,
) -> Result<(), OutOfMemory>
    requires keys { AreKeys tags.old.keys rows.old }
    requires new { (n : ℕ) → n < length (keys_at tags.old.keys rows.old)
        → key_at (keys_at tags.old.keys rows.old) n ≡ key.now → ⊥ }
    ensures keys { AreKeys tags.new.keys rows.new }
    ensures pushed { OnOk result (keys_at tags.new.keys rows.new
        ≡ keys_at tags.old.keys rows.old ++ key.now ∷ []) }
    ensures err { OnErr result (keys_at tags.new.keys rows.new ≡ keys_at tags.old.keys rows.old) }
{
    let place = place_of_tags(tags, near, &key.tags)?;
    push_row(rows, size_of(key), place, key.mine, key.publics.words())?;
    Ok(())
}

/// A word that is a size.
fn size_in(word: u64) -> u32
    requires { word < 2 ^ 32 }
    ensures { result ≡ word }
{
    word as u32
}

/// The place of the tags in a row.
fn place_in(row: &[u64]) -> usize
    requires { 3 ≤ length row.now }
    ensures { result ≡ place_in row.now }
{
    row[1] as usize
}

/// The key that a row and tags tell.
fn view_of<'a>(alloc: Global, tags: &'a [Tags], row: &'a [u64]) -> KeyView<'a>
    requires { IsKeyRow (length tags.now) row.now }
    ensures { seen_key result ≡ key_in tags.now row.now }
{
    KeyView {
        publics: BitsView::new(alloc, size_in(row[0]), &row[3..]),
        mine: row[2],
        tags: &tags[place_in(row)],
    }
}
