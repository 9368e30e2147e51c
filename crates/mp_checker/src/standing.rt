//! Objects that may stand for parameters.

ghost use Rattle.std.specs.Prelude.{◌≡◌, ◌++◌, true, slice_index_or, IfOk, IfSome};
ghost use Rattle.std.specs.Option.{is_some};
ghost use Rattle.mp_sexp.specs.Numbers.{number_in};
ghost use Rattle.mp_checker.specs.At.{nothing};
ghost use Rattle.mp_checker.specs.Standing.{is_flagged as is_flagged_in, are_flagged, numbers_at};

use crate::at::object_in;
use crate::members::ObjectFlags;
use crate::numbered::ObjectNumber;
use mp_list::OutOfMemory;
use mp_sexp::{Name, NameTable};

/// The object of a factor that has a name, where it may stand for a parameter.
#[tactic(auto, unfolding(mp_sexp::specs::Numbers::number_in))]
fn flagged_object(
    objects: &NameTable<'_>,
    numbers: &[ObjectNumber],
    flags: &ObjectFlags,
    name: &Name,
) -> Option<ObjectNumber>
    ensures flagged { is_some result ≡ is_flagged_in objects.now flags.now name.now }
    ensures object { IfSome result (λ object. object
        ≡ slice_index_or numbers.now (number_in objects.now name.now) nothing) }
{
    let Some(place) = objects.find(name.as_slice()) else {
        return None;
    };
    if !flags.is_set(place) {
        return None;
    }
    Some(object_in(numbers, place))
}

/// Whether there is one object for each parameter that may stand for it; if so, these are added in numbers. Refuses only
/// for want of memory.
pub fn add_standing(
    out: &mut Vec<ObjectNumber>,
    objects: &NameTable<'_>,
    numbers: &[ObjectNumber],
    members: &[ObjectFlags],
    args: &[Name],
) -> Result<bool, OutOfMemory>
    ensures standing { IfOk result (λ answer. answer ≡ are_flagged objects.now members.now args.now) }
    ensures added { IfOk result (λ answer. answer ≡ true
        → out.new.items ≡ out.old.items ++ numbers_at objects.now numbers.now args.now) }
{
    match members {
        [] => Ok(args.is_empty()),
        [flags, others @ ..] => match args {
            [] => Ok(false),
            [name, rest @ ..] => {
                let Some(object) = flagged_object(objects, numbers, flags, name) else {
                    return Ok(false);
                };
                out.push(object)?;
                add_standing(out, objects, numbers, others, rest)
            }
        },
    }
}
