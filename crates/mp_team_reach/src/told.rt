//! The lines of hints on goals.

use mp_forms::Literal;
use mp_hint_lines::{begin_hint, push_atom};
use mp_list::OutOfMemory;

/// Writes a literal as the text of a fact or complement.
pub(crate) fn push_literal(out: &mut String, literal: &Literal) -> Result<(), OutOfMemory> {
    if literal.positive {
        return push_atom(out, &literal.atom);
    }
    out.push_str("(not ")?;
    push_atom(out, &literal.atom)?;
    out.push(')')?;
    Ok(())
}

/// Tells that a goal cannot be reached: that no action makes it true, or that actions do which cannot be reached.
pub(crate) fn tell_goal(
    out: &mut String,
    file: &str,
    literal: &Literal,
    is_added: bool,
) -> Result<(), OutOfMemory> {
    begin_hint(out, file, literal.atom.word.at)?;
    if is_added {
        out.push_str("the goal `")?;
        push_literal(out, literal)?;
        out.push_str("` cannot be reached, even if no action made anything false\n")?;
    } else {
        out.push_str("no action makes the goal `")?;
        push_literal(out, literal)?;
        out.push_str("` true\n")?;
    }
    Ok(())
}
