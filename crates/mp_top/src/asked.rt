//! What the words of the command line ask for, and the files of the agents.

ghost use Rattle.std.specs.Prelude.{◌≡◌, map, string_bytes, IfOk, IfSome, MatchOption, None, Some};
ghost use Rattle.mp_files.specs.Fetched.{names_of};
ghost use Rattle.mp_top.specs.Asked.{KeepsLimits, agents_of};
ghost use Rattle.mp_words.specs.Reads.{wanted_by};
ghost use Rattle.mp_words.specs.Requests.{request_of};

use mp_files::AgentFiles;
use mp_list::OutOfMemory;
use mp_words::{Request, read_request};
use std::alloc::Global;

/// What the words ask for: none exactly where they are not accepted. Refuses only for want of memory.
pub(crate) fn asked(alloc: Global, words: &[String]) -> Result<Option<Request<'_>>, OutOfMemory>
    ensures request { IfOk result (λ r. MatchOption r
        (request_of (map string_bytes words.now) ≡ None)
        (λ r. request_of (map string_bytes words.now) ≡ Some (wanted_by r))) }
    ensures limits { IfOk result (λ r. IfSome r (λ r. KeepsLimits (wanted_by r))) }
{
    Ok(read_request(alloc, words)?)
}

/// The names of the agents' files: an agent's domain and then its problem, one agent after another.
pub(crate) fn files_of<'a>(
    alloc: Global,
    names: &[&'a str],
) -> Result<Vec<AgentFiles<'a>>, OutOfMemory>
    ensures { IfOk result (λ files. map names_of files.items ≡ agents_of (map (λ name. name.now) names.now)) }
{
    let mut files = Vec::with_capacity(alloc, names.len() / 2)?;
    let mut rest = names;
    while let [domain, problem, later @ ..] = rest {
        files.push(AgentFiles {
            domain: *domain,
            problem: *problem,
        })?;
        rest = later;
    }
    Ok(files)
}
