//! The lines of hints on actions.

use crate::objects::push_at;
use mp_forms::{Increase, Schema};
use mp_hint_lines::{begin_hint, push_atom};
use mp_hints::text_of;
use mp_list::OutOfMemory;
use mp_sexp::NameTable;
use mp_team_bindings::{Cause, Counts};

/// Tells that an action has no instances, and why.
pub(crate) fn tell_unmet(
    out: &mut String,
    file: &str,
    schema: &Schema,
    cause: Cause<'_>,
) -> Result<(), OutOfMemory> {
    let name = text_of(schema.word.name.as_slice());
    match cause {
        Cause::Parameter(word) => {
            let param = text_of(word.name.as_slice());
            begin_hint(out, file, word.at)?;
            write!(
                out,
                "no object is of the type of `{param}`, so the action `{name}` has no instances\n"
            )?;
        }
        Cause::Precondition(atom) => {
            begin_hint(out, file, atom.word.at)?;
            out.push_str("no fact at the start fits `")?;
            push_atom(out, atom)?;
            write!(
                out,
                "`, which no action changes, so the action `{name}` has no instances\n"
            )?;
        }
        Cause::Together => {
            begin_hint(out, file, schema.word.at)?;
            write!(
                out,
                "no objects meet all preconditions of the action `{name}` that no action changes, so it has no instances\n"
            )?;
        }
    }
    Ok(())
}

/// Tells that bindings of an action have no cost, and of which value at these objects the first lacks.
pub(crate) fn tell_unpriced(
    out: &mut String,
    file: &str,
    names: &NameTable<'_>,
    schema: &Schema,
    counts: Counts,
    objects: &[u32],
) -> Result<(), OutOfMemory> {
    let Some(Increase::Function(function)) = schema.increases.get(counts.lacking) else {
        return Ok(());
    };
    let name = text_of(schema.word.name.as_slice());
    let unpriced = counts.unpriced;
    let met = counts.met;
    begin_hint(out, file, function.word.at)?;
    out.push_str("no value of `")?;
    push_at(out, names, text_of(function.word.name.as_slice()), objects)?;
    write!(
        out,
        "` in `:init`; for want of values {unpriced} of {met} instances of the action `{name}` cannot be taken\n"
    )?;
    Ok(())
}
