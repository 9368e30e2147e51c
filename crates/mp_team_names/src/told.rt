//! The lines of hints on names.

use mp_hint_lines::{FileNames, begin_hint, files_of, push_place, push_types};
use mp_hints::text_of;
use mp_list::OutOfMemory;
use mp_team_sharing::{Declared, Kind};

/// Writes where a declaration stands.
fn push_where(
    out: &mut String,
    files: &[FileNames<'_>],
    one: &Declared<'_>,
) -> Result<(), OutOfMemory> {
    push_place(out, files_of(files, one.agent).name(one.file), one.word.at)
}

/// Begins a hint on a declaration.
fn begin(out: &mut String, files: &[FileNames<'_>], one: &Declared<'_>) -> Result<(), OutOfMemory> {
    begin_hint(out, files_of(files, one.agent).name(one.file), one.word.at)
}

/// Tells that no other factor has a public name, and which of theirs is nearest.
pub(crate) fn tell_alone(
    out: &mut String,
    files: &[FileNames<'_>],
    kind: Kind,
    one: &Declared<'_>,
    near: Option<Declared<'_>>,
) -> Result<(), OutOfMemory> {
    let what = kind.name();
    let name = text_of(one.word.name.as_slice());
    begin(out, files, one)?;
    write!(out, "no other factor has the public {what} `{name}`")?;
    if let Some(other) = near {
        let near = text_of(other.word.name.as_slice());
        write!(out, "; the nearest of theirs is `{near}` at ")?;
        push_where(out, files, &other)?;
    }
    out.push('\n')?;
    Ok(())
}

/// Tells that a name is private, and public in another factor.
pub(crate) fn tell_private(
    out: &mut String,
    files: &[FileNames<'_>],
    kind: Kind,
    one: &Declared<'_>,
    public: &Declared<'_>,
) -> Result<(), OutOfMemory> {
    let what = kind.name();
    let name = text_of(one.word.name.as_slice());
    begin(out, files, one)?;
    write!(
        out,
        "the {what} `{name}` is private, and so another one than the public `{name}` at "
    )?;
    push_where(out, files, public)?;
    out.push('\n')?;
    Ok(())
}

/// Tells that a public predicate has another number of arguments in another factor.
pub(crate) fn tell_counts(
    out: &mut String,
    files: &[FileNames<'_>],
    one: &Declared<'_>,
    first: &Declared<'_>,
) -> Result<(), OutOfMemory> {
    let name = text_of(one.word.name.as_slice());
    let here = one.params.len();
    let there = first.params.len();
    begin(out, files, one)?;
    write!(
        out,
        "the number of arguments of the public predicate `{name}` is {here}, and {there} at "
    )?;
    push_where(out, files, first)?;
    out.push('\n')?;
    Ok(())
}

/// Writes the types of the argument at a place.
fn push_argument(out: &mut String, one: &Declared<'_>, at: usize) -> Result<(), OutOfMemory> {
    match one.params.get(at) {
        Some(param) => push_types(out, param.types.as_slice()),
        None => Ok(()),
    }
}

/// Tells that an argument of a public predicate, at a place from 0, is of another type in another factor.
pub(crate) fn tell_types(
    out: &mut String,
    files: &[FileNames<'_>],
    one: &Declared<'_>,
    first: &Declared<'_>,
    at: usize,
) -> Result<(), OutOfMemory> {
    let name = text_of(one.word.name.as_slice());
    let number = at.saturating_add(1);
    begin(out, files, one)?;
    write!(
        out,
        "argument {number} of the public predicate `{name}` is of type `"
    )?;
    push_argument(out, one, at)?;
    out.push_str("`, and of type `")?;
    push_argument(out, first, at)?;
    out.push_str("` at ")?;
    push_where(out, files, first)?;
    out.push('\n')?;
    Ok(())
}
