//! Two files of the right shape, checked together.

ghost use Rattle.std.specs.Prelude.{◌≡◌, true, IfOk};
ghost use Rattle.mp_sexp.specs.Node.{node_of};
ghost use Rattle.mp_file_hints.specs.Accepted.{HaveNames};

use mp_check_hints::{Pair, tell_check};
use mp_factor::{ShapeRefusal, domain, problem};
use mp_forms::Domain;
use mp_list::OutOfMemory;
use mp_typing::{CheckRefusal, check};
use std::alloc::{AllocError, Global};

/// Whether some action increases the total cost.
fn has_increases(domain: &Domain) -> bool {
    for schema in domain.schemas.as_slice() {
        if schema.increases.len() > 0 {
            return true;
        }
    }
    false
}

/// Why two files are no factor; where they are one, whether actions increase a total cost that is not to be least.
fn checked(alloc: Global, pair: &Pair<'_>) -> Result<Result<bool, CheckRefusal>, ShapeRefusal>
    ensures { IfOk result (λ found. IfOk found (λ _.
        HaveNames (node_of pair.now.domain_tree.now) (node_of pair.now.problem_tree.now))) }
{
    let first = domain(alloc, pair.domain_tree)?;
    let second = problem(alloc, pair.problem_tree)?;
    let lacks_metric = has_increases(&first) && !second.metric;
    match check(alloc, first, second) {
        Ok(_) => Ok(Ok(lacks_metric)),
        Err(refusal) => Ok(Err(refusal)),
    }
}

/// Tells why two files are no factor.
fn tell_refusal(
    alloc: Global,
    out: &mut String,
    pair: &Pair<'_>,
    refusal: &CheckRefusal,
) -> Result<(), OutOfMemory> {
    match refusal {
        CheckRefusal::OutOfMemory => Err(OutOfMemory),
        other => Ok(tell_check(alloc, out, pair, other)?),
    }
}

/// Tells that costs do not count in a factor whose actions have some.
fn hint_at_metric(out: &mut String, pair: &Pair<'_>) -> Result<(), AllocError> {
    let problem = pair.problem.name;
    let domain = pair.domain.name;
    write!(
        out,
        "{problem}: hint: actions of {domain} increase the total cost, and this problem has no `(:metric minimize (total-cost))`, so each action costs 1\n"
    )
}

/// Whether two files are a factor; what is wrong with their names is told. Refuses only for want of memory.
pub(crate) fn is_factor(
    alloc: Global,
    out: &mut String,
    pair: &Pair<'_>,
) -> Result<bool, OutOfMemory>
    ensures { IfOk result (λ fine. fine ≡ true →
        HaveNames (node_of pair.now.domain_tree.now) (node_of pair.now.problem_tree.now)) }
{
    match checked(alloc, pair) {
        Ok(Ok(lacks_metric)) => {
            if lacks_metric {
                hint_at_metric(out, pair)?;
            }
            Ok(true)
        }
        Ok(Err(refusal)) => {
            tell_refusal(alloc, out, pair, &refusal)?;
            Ok(false)
        }
        Err(ShapeRefusal::OutOfMemory) => Err(OutOfMemory),
        // (each tree was found to have the right shape)
        Err(_) => Ok(false),
    }
}
