//! The texts of the files that stand before those of the agents.

ghost use Rattle.std.specs.Prelude.{◌≡◌, ◌<◌, ◌^◌, IfOk, IfErr, Some, slice_get, take};
ghost use Rattle.mp_files.specs.Cause.{seen_source};
ghost use Rattle.mp_outside.specs.Acts.{Does, IsReadOnce};
ghost use Rattle.mp_top.specs.Asked.{TeamRequest};
ghost use Rattle.mp_top.specs.Cause.{Rests};
ghost use Rattle.mp_top.specs.Refusal.{status_of};
ghost use Rattle.mp_top.specs.FirstText.{HaveTexts, IsTextOf};

use crate::refusal::{FirstRefusal, Refusal};
use crate::status::Status;
use mp_files::Refusal as FilesRefusal;
use mp_outside::{FetchRefusal, Source, fetch};
use std::alloc::Global;

/// The greatest number of bytes of a schedule's file.
pub(crate) const LONGEST_SCHEDULE: usize = 67_108_864;

/// The greatest number of bytes of a certificate's file.
pub(crate) const LONGEST_CERTIFICATE: usize = 67_108_864;

/// The greatest number of bytes of a plan's file.
pub(crate) const LONGEST_PLAN: usize = 4_194_304;

/// The text of the file of this name, which may have so many bytes, and stands at this place among the first files. It is read at
/// most once, and at most one byte more of it.
pub(crate) fn first_text<S: Source>(
    alloc: Global,
    source: &mut S,
    name: &str,
    longest: usize,
    place: usize,
) -> Result<Vec<u8>, Refusal>
    requires { longest < 2 ^ 32 }
    ensures text { IfOk result (λ text. IsTextOf (S.held source.old) (record { name = name.now; longest = longest })
        text.items) }
    ensures cause { (request : TeamRequest)
        → slice_get request.first place ≡ Some (record { name = name.now; longest = longest })
        → HaveTexts (S.held source.old) (take place request.first)
        → IfErr result (Rests (seen_source S.held S.faults S.fault_at source.old source.new) request) }
    ensures no_fault { IfOk result (λ _. S.faults source.new ≡ S.faults source.old) }
    ensures fault { IfErr result (λ r. S.faults source.old < S.faults source.new → status_of r ≡ Status.Read) }
    ensures held { S.held source.new ≡ S.held source.old }
    ensures acts { Does (IsReadOnce (record { name = name.now; longest = longest }))
        (S.acts source.old) (S.acts source.new) }
{
    match fetch(alloc, source, name, longest) {
        Ok(text) if text.len() > longest => Err(Refusal::First(place, FirstRefusal::TooLarge)),
        Ok(text) => Ok(text),
        Err(FetchRefusal::Absent) => Err(Refusal::First(place, FirstRefusal::Read)),
        Err(FetchRefusal::Failed) => Err(Refusal::First(place, FirstRefusal::Read)),
        Err(FetchRefusal::OutOfMemory) => Err(Refusal::Files(FilesRefusal::OutOfMemory)),
    }
}
