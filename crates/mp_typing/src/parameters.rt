//! Parameters of an action that are declared more than once.

ghost use Rattle.std.specs.Prelude.{◌≡◌, ◌&&◌, [], not, IfOk};
ghost use Rattle.std.specs.List.{list_any};
ghost use Rattle.mp_forms.specs.declared.files.File.TheVariants.{Domain as DomainFile};
ghost use Rattle.mp_typing.specs.Faults.{leftmost};
ghost use Rattle.mp_typing.specs.Repeats.{is_before, is_same, is_second, parameter_faults, twice_if};

use crate::fault::{Fault, FaultKind, with};
use crate::repeats::is_same_name;
use mp_forms::{File, Typed};
use mp_list::OutOfMemory;
use mp_sexp::Place;

/// Whether a place stands before another in a file.
fn stands_before(a: Place, b: Place) -> bool
    ensures { result ≡ is_before a b }
{
    a.line < b.line || a.line == b.line && a.column < b.column
}

/// Whether one of these has the name of a parameter and does not stand behind it in the file.
fn has_one_not_behind(params: &[Typed], param: &Typed) -> bool
    ensures { result ≡ list_any (λ p. is_same p.word param.now.word && not (is_before param.now.word.at p.word.at)) params.now }
{
    params.iter().any(|p| is_same_name(&p.word, &param.word)
        && !stands_before(param.word.at, p.word.at))
}

/// Whether one of these has the name of a parameter and stands before it in the file.
fn has_one_before(params: &[Typed], param: &Typed) -> bool
    ensures { result ≡ list_any (λ p. is_same p.word param.now.word && is_before p.word.at param.now.word.at) params.now }
{
    params.iter().any(|p| is_same_name(&p.word, &param.word)
        && stands_before(p.word.at, param.word.at))
}

/// The first fault, with that of a parameter that stands between others of its action. Refuses only for want of memory.
fn parameter_fault(
    least: Option<Fault>,
    earlier: &[Typed],
    param: &Typed,
    later: &[Typed],
) -> Result<Option<Fault>, OutOfMemory>
    ensures { IfOk result (λ first. first ≡ leftmost least (twice_if (is_second earlier.now param.now later.now) DomainFile param.now.word)) }
{
    if has_one_not_behind(earlier, param) || has_one_before(later, param) {
        with(least, FaultKind::Twice, File::Domain, &param.word)
    } else {
        Ok(least)
    }
}

/// The first fault, with those of an action's parameters. There are few of them, so each is compared with all others.
/// Refuses only for want of memory.
pub fn parameters_fault(
    least: Option<Fault>,
    params: &[Typed],
) -> Result<Option<Fault>, OutOfMemory>
    ensures { IfOk result (λ first. first ≡ leftmost least (parameter_faults [] params.now)) }
{
    let mut first = least;
    for (i, param) in params.iter().enumerate() {
        first = parameter_fault(first, &params[..i], param, &params[i + 1..])?;
    }
    Ok(first)
}
