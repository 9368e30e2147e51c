//! What is wrong with a file or with two files, as lines.

use crate::words::{show, show_place};
use mp_factor::ShapeRefusal;
use mp_forms::{Fault, FaultKind, File};
use mp_list::OutOfMemory;
use mp_sexp::{Name, Place};
use mp_typing::{CheckRefusal, Found};

/// The name of a kind of faults of shape, behind a space.
fn name(kind: FaultKind) -> &'static [u8] {
    match kind {
        FaultKind::Shape => b" shape",
        FaultKind::Unsupported => b" unsupported",
        FaultKind::Parameters => b" parameters",
        FaultKind::Cost => b" cost",
    }
}

/// Adds the place and the kind of a fault of shape.
fn show_kind(out: &mut Vec<u8>, kind: FaultKind, place: Place) -> Result<(), OutOfMemory> {
    show(out, b"  ")?;
    show_place(out, place)?;
    show(out, name(kind))
}

/// Adds the line of a fault of shape.
fn show_fault(out: &mut Vec<u8>, kind: FaultKind, place: Place) -> Result<(), OutOfMemory> {
    show_kind(out, kind, place)?;
    show(out, b"\n")
}

/// Adds the line of the first fault of shape, or of none.
pub(crate) fn show_first(out: &mut Vec<u8>, fault: Option<Fault>) -> Result<(), OutOfMemory> {
    match fault {
        Some(fault) => show_fault(out, fault.kind, fault.place),
        None => show(out, b"  none\n"),
    }
}

/// Adds the line of a word that is not supported.
fn show_unsupported(out: &mut Vec<u8>, name: &Name, place: Place) -> Result<(), OutOfMemory> {
    show_kind(out, FaultKind::Unsupported, place)?;
    show(out, b" ")?;
    show(out, name.as_slice())?;
    show(out, b"\n")
}

/// Adds the line of a file that is refused.
pub(crate) fn show_shape(out: &mut Vec<u8>, refusal: &ShapeRefusal) -> Result<(), OutOfMemory> {
    match refusal {
        ShapeRefusal::Shape(place) => show_fault(out, FaultKind::Shape, *place),
        ShapeRefusal::Unsupported(name, place) => show_unsupported(out, name, *place),
        ShapeRefusal::Parameters(place) => show_fault(out, FaultKind::Parameters, *place),
        ShapeRefusal::Cost(place) => show_fault(out, FaultKind::Cost, *place),
        ShapeRefusal::OutOfMemory => show(out, b"  out of memory\n"),
    }
}

/// The name of a file.
fn file_name(file: File) -> &'static [u8] {
    match file {
        File::Domain => b"domain",
        File::Problem => b"problem",
    }
}

/// Adds the line of a word that is at fault: its file and place, the kind, and the word.
fn show_found(out: &mut Vec<u8>, kind: &[u8], found: &Found) -> Result<(), OutOfMemory> {
    show(out, b"  ")?;
    show(out, file_name(found.file))?;
    show(out, b" ")?;
    show_place(out, found.at)?;
    show(out, kind)?;
    show(out, found.name.as_slice())?;
    show(out, b"\n")
}

/// Adds the line of two files that are refused.
pub(crate) fn show_check(out: &mut Vec<u8>, refusal: &CheckRefusal) -> Result<(), OutOfMemory> {
    match refusal {
        CheckRefusal::WrongDomain(found) => show_found(out, b" wrong domain ", found),
        CheckRefusal::UnknownName(found) => show_found(out, b" unknown ", found),
        CheckRefusal::Arity(found) => show_found(out, b" arity ", found),
        CheckRefusal::Twice(found) => show_found(out, b" twice ", found),
        CheckRefusal::OutOfMemory => show(out, b"  out of memory\n"),
    }
}
