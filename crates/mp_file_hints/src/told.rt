//! What is told of the two files of an agent.

ghost use Rattle.std.specs.Prelude.{◌≡◌, true, IfOk};
ghost use Rattle.mp_file_hints.specs.Accepted.{AreFactor};

use crate::checked::is_factor;
use crate::shaped::tree_of;
use mp_bracket_hints::FileText;
use mp_check_hints::Pair;
use mp_forms::File;
use mp_list::OutOfMemory;
use std::alloc::Global;

/// Tells of each of an agent's two files that `maplan` refuses where its first fault stands, what is wrong there, what the
/// format has at that place, and how else to write it; and answers whether `maplan` accepts both: the same calls are
/// asked. Where one file is refused by itself, the names of both are not checked. Refuses only for want of memory.
pub fn explain_pair(
    alloc: Global,
    out: &mut String,
    domain: FileText<'_>,
    problem: FileText<'_>,
) -> Result<bool, OutOfMemory>
    ensures { IfOk result (λ accepted. accepted ≡ true → AreFactor domain.entry.text.now problem.entry.text.now) }
{
    let first = tree_of(alloc, out, domain, File::Domain)?;
    let second = tree_of(alloc, out, problem, File::Problem)?;
    let Some(domain_tree) = first else {
        return Ok(false);
    };
    let Some(problem_tree) = second else {
        return Ok(false);
    };
    let pair = Pair {
        domain,
        domain_tree: &domain_tree,
        problem,
        problem_tree: &problem_tree,
    };
    is_factor(alloc, out, &pair)
}
