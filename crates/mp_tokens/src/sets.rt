//! Sets of one size as rows of their words.

ghost use Rattle.std.specs.Prelude.{◌≡◌, ◌≤◌, ◌<◌, ◌∷◌, ◌++◌, [], ℕ, IfNone, IfSome, OnErr, OnOk, length};
ghost use Rattle.mp_tokens.specs.Order.{set_at};
ghost use Rattle.mp_tokens.specs.SetRows.{sets_of, AreSetRows, IsSetRow};

use mp_list::OutOfMemory;
use mp_rows::Rows;
use mp_sets::Bits;

/// The number of the row of a set: none exactly where it has none.
pub(crate) fn find_set(rows: &Rows, set: &Bits) -> Option<usize>
    requires { AreSetRows set.now.size rows.now }
    ensures found { IfSome result (λ n. (n < length rows.now)
        × (set_at (sets_of set.now.size rows.now) n ≡ set.now.members)) }
    ensures none { IfNone result ((n : ℕ) → n < length rows.now
        → set_at (sets_of set.now.size rows.now) n ≡ set.now.members → ⊥) }
{
    rows.find(&[], set.words())
}

/// Adds the row of a set that has none.
pub(crate) fn add_set(rows: &mut Rows, set: &Bits) -> Result<(), OutOfMemory>
    requires rows { AreSetRows set.now.size rows.old }
    requires new { (n : ℕ) → n < length rows.old
        → set_at (sets_of set.now.size rows.old) n ≡ set.now.members → ⊥ }
    ensures rows { AreSetRows set.now.size rows.new }
    ensures added { OnOk result (sets_of set.now.size rows.new
        ≡ sets_of set.now.size rows.old ++ set.now.members ∷ []) }
    ensures longer { length rows.old ≤ length rows.new }
    ensures err { OnErr result (rows.new ≡ rows.old) }
{
    rows.push(&[], set.words())?;
    Ok(())
}
