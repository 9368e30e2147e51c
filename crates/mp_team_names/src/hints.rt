//! Which names there is a hint on.

use crate::domains::tell_domains;
use crate::told::{tell_alone, tell_counts, tell_private, tell_types};
use mp_hint_lines::FileNames;
use mp_list::OutOfMemory;
use mp_team_sharing::{
    Declared, Kind, Sharing, SharingMap, bit_of, declared_by, first_unlike, nearest_to, sharing_of,
};
use mp_typing::CheckedFactor;
use std::alloc::Global;

/// The most hints of one sort that are told of a kind of names.
const MOST: usize = 12;

/// How many hints of each sort there are.
#[derive(Clone, Copy)]
struct Counts {
    alone: usize,
    unlike: usize,
    private: usize,
}

/// Counts one more, and says whether it is to be told.
fn is_told(count: &mut usize) -> bool {
    *count = count.saturating_add(1);
    *count <= MOST
}

/// Whether two are the same declaration.
fn is_same(one: &Declared<'_>, other: &Declared<'_>) -> bool {
    one.agent == other.agent && one.file == other.file && one.word.at == other.word.at
}

/// Tells how a public declaration differs from the first one, that of another factor, if it does.
fn tell_unlike(
    out: &mut String,
    files: &[FileNames<'_>],
    counts: &mut Counts,
    one: &Declared<'_>,
    first: &Declared<'_>,
) -> Result<(), OutOfMemory> {
    if one.params.len() != first.params.len() {
        if is_told(&mut counts.unlike) {
            return tell_counts(out, files, one, first);
        }
        return Ok(());
    }
    if let Some(at) = first_unlike(one.params, first.params) {
        if is_told(&mut counts.unlike) {
            return tell_types(out, files, one, first, at);
        }
    }
    Ok(())
}

/// Tells that no other factor has a public name.
fn tell_lonely<'a>(
    alloc: Global,
    out: &mut String,
    files: &[FileNames<'_>],
    kind: Kind,
    all: &[Declared<'a>],
    map: &SharingMap<'a>,
    one: &Declared<'a>,
) -> Result<(), OutOfMemory> {
    let near = nearest_to(alloc, all, map, one)?;
    tell_alone(out, files, kind, one, near)
}

/// Tells what there is to say of a declaration, where these factors have its name, and this is the first public one.
fn tell_one<'a>(
    alloc: Global,
    out: &mut String,
    files: &[FileNames<'_>],
    kind: Kind,
    all: &[Declared<'a>],
    map: &SharingMap<'a>,
    counts: &mut Counts,
    one: &Declared<'a>,
) -> Result<(), OutOfMemory> {
    let Some(sharing) = map.get(one.word.name.as_slice()) else {
        return Ok(());
    };
    let Some(first) = sharing.public else {
        return Ok(());
    };
    if first.agent != one.agent {
        return tell_beside(out, files, kind, counts, one, &first);
    }
    if is_lonely(sharing, one, &first) && is_told(&mut counts.alone) {
        return tell_lonely(alloc, out, files, kind, all, map, one);
    }
    Ok(())
}

/// Whether a declaration is the first public one of its name, and no other factor has the name.
fn is_lonely(sharing: &Sharing<'_>, one: &Declared<'_>, first: &Declared<'_>) -> bool {
    sharing.factors == bit_of(one.agent) && is_same(one, first)
}

/// Tells what there is to say of a declaration whose name is public in another factor, which declares it so.
fn tell_beside(
    out: &mut String,
    files: &[FileNames<'_>],
    kind: Kind,
    counts: &mut Counts,
    one: &Declared<'_>,
    first: &Declared<'_>,
) -> Result<(), OutOfMemory> {
    if !one.private {
        return tell_unlike(out, files, counts, one, first);
    }
    if is_told(&mut counts.private) {
        return tell_private(out, files, kind, one, first);
    }
    Ok(())
}

/// Tells how many more hints of a sort there are.
fn tell_more(out: &mut String, kind: Kind, count: usize, sort: &str) -> Result<(), OutOfMemory> {
    if count <= MOST {
        return Ok(());
    }
    let what = kind.name();
    let more = count - MOST;
    write!(out, "hint: {more} more {what}s {sort}\n")?;
    Ok(())
}

/// Tells what there is to say of names of a kind, where it is known which factors have each.
fn tell_all<'a>(
    alloc: Global,
    out: &mut String,
    files: &[FileNames<'_>],
    kind: Kind,
    all: &[Declared<'a>],
    map: &SharingMap<'a>,
) -> Result<(), OutOfMemory> {
    let mut counts = Counts {
        alone: 0,
        unlike: 0,
        private: 0,
    };
    for one in all {
        tell_one(alloc, out, files, kind, all, map, &mut counts, one)?;
    }
    tell_more(out, kind, counts.alone, "are public in one factor alone")?;
    tell_more(
        out,
        kind,
        counts.unlike,
        "have other arguments in another factor",
    )?;
    tell_more(
        out,
        kind,
        counts.private,
        "are private in one factor and public in another",
    )
}

/// Tells what there is to say of the names of a kind.
fn tell_kind(
    alloc: Global,
    out: &mut String,
    kind: Kind,
    team: &[CheckedFactor],
    files: &[FileNames<'_>],
) -> Result<(), OutOfMemory> {
    let all = declared_by(alloc, kind, team)?;
    let map = sharing_of(alloc, all.as_slice())?;
    tell_all(alloc, out, files, kind, all.as_slice(), &map)
}

/// Writes hints on the names of a team of several agents: domains of different names, public predicates and objects that
/// one factor alone has, predicates that factors declare in different ways, and names that are private in one factor and
/// public in another. Refuses only for want of memory.
pub fn explain_names(
    alloc: Global,
    out: &mut String,
    team: &[CheckedFactor],
    files: &[FileNames<'_>],
) -> Result<(), OutOfMemory> {
    if team.len() < 2 {
        return Ok(());
    }
    tell_domains(out, team, files)?;
    tell_kind(alloc, out, Kind::Predicate, team, files)?;
    tell_kind(alloc, out, Kind::Object, team, files)
}
