//! What the text of a file says, and the factor of two files.

ghost use Rattle.std.specs.Prelude.{◌≡◌, ◌≤◌, Ok, IfOk, IfErr, vec_len};
ghost use Rattle.mp_forms.specs.Rules.Files.{domain_rule, problem_rule};
ghost use Rattle.mp_sexp.specs.Node.{node_of};
ghost use Rattle.mp_sexp.specs.Spelling.{HasTree};
ghost use Rattle.mp_files.specs.File.{Checks, HasShape, SaysDomain, SaysProblem, Spells, longest_file};
ghost use Rattle.mp_files.specs.File.{file_of as file_of_agent, told_check, told_shape};
ghost use Rattle.mp_files.specs.Reading.{Refuses};

use crate::refusal::{Fault, FileOf, Refusal};
use mp_factor::{ShapeRefusal, domain, into_problem};
use mp_forms::{Domain, File, Problem};
use mp_sexp::{ReadRefusal, Tree, read};
use mp_typing::{CheckRefusal, CheckedFactor, Found, check};
use std::alloc::Global;

/// The tree of a file's text, which is let go, so that text and factor are never held together.
fn tree_of(alloc: Global, text: Vec<u8>, file: FileOf) -> Result<Tree, Refusal>
    requires { vec_len text ≤ longest_file }
    ensures tree { IfOk result (λ tree. HasTree text.items (node_of tree)) }
    ensures cause { IfErr result (Refuses (Spells file text.items)) }
{
    match read(alloc, text.as_slice()) {
        Ok(tree) => Ok(tree),
        Err(ReadRefusal::Char(place)) => Err(Refusal::Fault(file, Fault::Char, place)),
        Err(ReadRefusal::Unbalanced(place)) => Err(Refusal::Fault(file, Fault::Unbalanced, place)),
        Err(ReadRefusal::Trailing(place)) => Err(Refusal::Fault(file, Fault::Trailing, place)),
        Err(ReadRefusal::Deep(place)) => Err(Refusal::Fault(file, Fault::Deep, place)),
        Err(ReadRefusal::OutOfMemory) => Err(Refusal::OutOfMemory),
    }
}

/// The refusal of a file's tree for its shape.
fn refusal_of_shape(file: FileOf, refusal: ShapeRefusal) -> Refusal
    ensures { result ≡ told_shape file refusal }
{
    match refusal {
        ShapeRefusal::Shape(place) => Refusal::Fault(file, Fault::Shape, place),
        ShapeRefusal::Unsupported(word, place) => {
            Refusal::Fault(file, Fault::Unsupported(word), place)
        }
        ShapeRefusal::Parameters(place) => Refusal::Fault(file, Fault::Parameters, place),
        ShapeRefusal::Cost(place) => Refusal::Fault(file, Fault::Cost, place),
        ShapeRefusal::OutOfMemory => Refusal::OutOfMemory,
    }
}

/// A file of an agent.
pub(crate) fn file_of(agent: usize, file: File) -> FileOf
    ensures { result ≡ file_of_agent agent file }
{
    FileOf { agent, file }
}

/// The refusal of a factor that did not pass the checks.
fn refusal_of_check(agent: usize, refusal: CheckRefusal) -> Refusal
    ensures { result ≡ told_check agent refusal }
{
    match refusal {
        CheckRefusal::WrongDomain(Found { file, at, name }) => {
            Refusal::Fault(file_of(agent, file), Fault::WrongDomain(name), at)
        }
        CheckRefusal::UnknownName(Found { file, at, name }) => {
            Refusal::Fault(file_of(agent, file), Fault::Unknown(name), at)
        }
        CheckRefusal::Arity(Found { file, at, name }) => {
            Refusal::Fault(file_of(agent, file), Fault::Arity(name), at)
        }
        CheckRefusal::Twice(Found { file, at, name }) => {
            Refusal::Fault(file_of(agent, file), Fault::Twice(name), at)
        }
        CheckRefusal::OutOfMemory => Refusal::OutOfMemory,
    }
}

/// What a domain's tree says.
fn said_domain(alloc: Global, tree: &Tree, file: FileOf) -> Result<Domain, Refusal>
    ensures said { IfOk result (λ said. HasShape file (domain_rule (node_of tree.now)) (Ok said)) }
    ensures cause { IfErr result (Refuses (HasShape file (domain_rule (node_of tree.now)))) }
{
    match domain(alloc, tree) {
        Ok(said) => Ok(said),
        Err(refusal) => Err(refusal_of_shape(file, refusal)),
    }
}

/// What a problem's tree says, which is let go.
fn said_problem(alloc: Global, tree: Tree, file: FileOf) -> Result<Problem, Refusal>
    ensures said { IfOk result (λ said. HasShape file (problem_rule (node_of tree)) (Ok said)) }
    ensures cause { IfErr result (Refuses (HasShape file (problem_rule (node_of tree)))) }
{
    match into_problem(alloc, tree) {
        Ok(said) => Ok(said),
        Err(refusal) => Err(refusal_of_shape(file, refusal)),
    }
}

/// The domain that a text says.
pub(crate) fn domain_of_text(alloc: Global, text: Vec<u8>, file: FileOf) -> Result<Domain, Refusal>
    requires { vec_len text ≤ longest_file }
    ensures said { IfOk result (λ said. SaysDomain file text.items (Ok said)) }
    ensures cause { IfErr result (Refuses (SaysDomain file text.items)) }
{
    let tree = tree_of(alloc, text, file)?;
    said_domain(alloc, &tree, file)
}

/// The problem that a text says.
pub(crate) fn problem_of_text(
    alloc: Global,
    text: Vec<u8>,
    file: FileOf,
) -> Result<Problem, Refusal>
    requires { vec_len text ≤ longest_file }
    ensures said { IfOk result (λ said. SaysProblem file text.items (Ok said)) }
    ensures cause { IfErr result (Refuses (SaysProblem file text.items)) }
{
    let tree = tree_of(alloc, text, file)?;
    said_problem(alloc, tree, file)
}

/// The factor of a domain and a problem, when nothing is wrong with it.
pub(crate) fn checked(
    alloc: Global,
    agent: usize,
    domain: Domain,
    problem: Problem,
) -> Result<CheckedFactor, Refusal>
    ensures factor { IfOk result (λ factor. Checks agent (record { domain = domain; problem = problem }) (Ok factor)) }
    ensures cause { IfErr result (Refuses (Checks agent (record { domain = domain; problem = problem }))) }
{
    match check(alloc, domain, problem) {
        Ok(factor) => Ok(factor),
        Err(refusal) => Err(refusal_of_check(agent, refusal)),
    }
}
