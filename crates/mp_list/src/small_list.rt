//! Lists that take no memory of their own while they have at most one item.

ghost use Rattle.std.specs.Prelude.{◌≡◌, ◌++◌, ◌∷◌, [], length, slice_get, IfOk, OnOk, OnErr};
ghost use Rattle.std.specs.Option.{option_copied};
ghost use Rattle.mp_list.specs.Kept.{items_of};

use crate::copied::Copied;
use crate::memory::OutOfMemory;
use std::alloc::Global;
use std::fmt;
use std::marker::Model;

/// Where a small list keeps its items.
#[derive(Drop)]
pub(crate) enum Kept<T> {
    Empty,
    /// In the list itself.
    One([T; 1]),
    /// In memory of their own. The box keeps a list of short items short.
    Many(Box<Vec<T>>),
}

/// A list with its only item in itself and, where there are two or more, with memory of their own. Contracts
/// see it as the list of its items.
pub struct SmallList<T> {
    kept: Kept<T>,
    /// What gives memory to a list that grows longer.
    alloc: Global,
}

impl<T: Drop> Drop for SmallList<T> {
    fn drop(self) {
        let SmallList { kept: _, alloc: _ } = self;
    }
}

impl<T> Model for SmallList<T> {
    ghost use Rattle.std.specs.Prelude.{List};
    ghost use Rattle.mp_list.specs.Kept.{items_of};

    ghost Value = { List T };

    ghost view = { λ l. items_of l.kept };
}

/// The one item.
fn only<T>(one: &[T; 1]) -> &T
    ensures { one.now ≡ result.now ∷ [] }
{
    &one[0]
}

/// An item and one more.
fn pair<T: Copied + Drop>(alloc: Global, one: &[T; 1], item: T) -> Result<Kept<T>, OutOfMemory>
    ensures { IfOk result (λ kept. items_of kept ≡ one.now ++ item ∷ []) }
{
    let mut items = Vec::with_capacity(alloc, 2)?;
    items.push(only(one).copy()?)?;
    items.push(item)?;
    Ok(Kept::Many(Box::new(alloc, items)?))
}

impl<T> SmallList<T> {
    /// The empty list.
    pub fn new(alloc: Global) -> SmallList<T>
        ensures { result ≡ [] }
    {
        SmallList {
            kept: Kept::Empty,
            alloc,
        }
    }

    /// The empty list, with memory for this many items where they are two or more. Refuses only for want of memory.
    pub fn with_capacity(alloc: Global, capacity: usize) -> Result<SmallList<T>, OutOfMemory>
    where
        T: Drop,
        ensures { IfOk result (λ list. list ≡ []) }
    {
        if capacity < 2 {
            return Ok(SmallList::new(alloc));
        }
        let items = Vec::with_capacity(alloc, capacity)?;
        Ok(SmallList {
            kept: Kept::Many(Box::new(alloc, items)?),
            alloc,
        })
    }

    /// Adds an item at the end. For want of memory the list stays as it was.
    pub fn push(&mut self, item: T) -> Result<(), OutOfMemory>
    where
        T: Copied + Drop,
        ensures ok { OnOk result (self.new ≡ self.old ++ item ∷ []) }
        ensures err { OnErr result (self.new ≡ self.old) }
    {
        match &mut self.kept {
            Kept::Empty => self.kept = Kept::One([item]),
            Kept::One(one) => self.kept = pair(self.alloc, one, item)?,
            Kept::Many(items) => items.push(item)?,
        }
        Ok(())
    }

    /// The number of items.
    pub fn len(&self) -> usize
        ensures { result ≡ length self.now }
    {
        self.as_slice().len()
    }

    /// The item at a place, counted from 0: none exactly where the list is not longer than that.
    pub fn get(&self, at: usize) -> Option<&T>
        ensures { option_copied result ≡ slice_get self.now at }
    {
        self.as_slice().get(at)
    }

    /// The items, first one first.
    pub fn as_slice(&self) -> &[T]
        ensures { result.now ≡ self.now }
    {
        match &self.kept {
            Kept::Empty => &[],
            Kept::One(one) => one,
            Kept::Many(items) => items.as_slice(),
        }
    }
}

impl<T: Copied + Drop> Copied for SmallList<T> {
    fn copy(&self) -> Result<SmallList<T>, OutOfMemory> {
        let alloc = self.alloc;
        let kept = match &self.kept {
            Kept::Empty => Kept::Empty,
            Kept::One(one) => Kept::One([only(one).copy()?]),
            Kept::Many(items) => {
                let copied = T::copy_all(alloc, items.as_slice())?;
                Kept::Many(Box::new(alloc, copied)?)
            }
        };
        Ok(SmallList { kept, alloc })
    }
}

/// A small list is written as a slice is, `[1, 2]`.
impl<T: fmt::Debug> fmt::Debug for SmallList<T> {
    fn fmt<W: fmt::Write>(&self, f: &mut fmt::Formatter<W>) -> fmt::Result {
        fmt::Debug::fmt(&self.as_slice(), f)
    }
}
