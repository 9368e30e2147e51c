//! What is put at a place of a list that grows as it has to.

ghost use Rattle.std.specs.Prelude.{◌≡◌, ℕ, ◌<◌, ◌==◌, length, slice_index_or, OnOk, if◌then◌else◌};

use mp_list::OutOfMemory;

/// Makes room up to a place.
fn grow<T: Copy + Drop>(items: &mut Vec<T>, place: usize, nothing: T) -> Result<(), OutOfMemory>
    ensures room { OnOk result (place < length items.new.items) }
    ensures same { OnOk result ((k : ℕ) → slice_index_or items.new.items k nothing
        ≡ slice_index_or items.old.items k nothing) }
{
    while items.len() <= place {
        items.push(nothing)?;
    }
    Ok(())
}

/// Puts something at a place, where nothing stands past the end. Refuses only for want of memory.
pub fn put<T: Copy + Drop>(
    items: &mut Vec<T>,
    place: usize,
    nothing: T,
    new: T,
) -> Result<(), OutOfMemory>
    ensures { OnOk result ((k : ℕ) → slice_index_or items.new.items k nothing
        ≡ (if place == k then new else slice_index_or items.old.items k nothing)) }
{
    grow(items, place, nothing)?;
    items[place] = new;
    Ok(())
}
