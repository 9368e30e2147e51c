//! Marks of numbers.

ghost use Rattle.std.specs.Prelude.{◌≡◌, ℕ, ◌<◌, ◌==◌, length, OnOk, if◌then◌else◌};
ghost use Rattle.std.specs.List.{list_any};
ghost use Rattle.mp_checker.specs.Marked.{is_marked as has_mark};

use mp_list::OutOfMemory;

/// Whether a number is marked.
pub fn is_marked(marks: &[bool], number: u32) -> bool
    ensures { result ≡ has_mark marks.now number }
{
    match marks.get(number as usize) {
        Some(mark) => *mark,
        None => false,
    }
}

/// Makes room for the mark of a number.
fn grow(marks: &mut Vec<bool>, number: u32) -> Result<(), OutOfMemory>
    ensures room { OnOk result (number < length marks.new.items) }
    ensures same { OnOk result ((k : ℕ) → has_mark marks.new.items k ≡ has_mark marks.old.items k) }
{
    for _ in marks.len()..number as usize + 1 {
        marks.push(false)?;
    }
    Ok(())
}

/// Sets the mark of a number. Refuses only for want of memory.
pub fn set_mark(marks: &mut Vec<bool>, number: u32, mark: bool) -> Result<(), OutOfMemory>
    ensures { OnOk result ((k : ℕ) → has_mark marks.new.items k
        ≡ (if number == k then mark else has_mark marks.old.items k)) }
{
    grow(marks, number)?;
    marks[number as usize] = mark;
    Ok(())
}

/// Sets the marks of numbers. Refuses only for want of memory.
pub fn set_marks(marks: &mut Vec<bool>, numbers: &[u32], mark: bool) -> Result<(), OutOfMemory>
    ensures { OnOk result ((k : ℕ) → has_mark marks.new.items k
        ≡ (if list_any (λ n. n == k) numbers.now then mark else has_mark marks.old.items k)) }
{
    for number in numbers {
        set_mark(marks, *number, mark)?;
    }
    Ok(())
}
