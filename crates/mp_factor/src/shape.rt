//! The two calls that read a factor's files: the first fault of a tree, or what it says.

ghost use Rattle.std.specs.Prelude.{◌≡◌, [], false, codes, Err, IsOk, IfOk, IfErr, MatchOption};
ghost use Rattle.mp_sexp.specs.Node.{node_of, nodes_in};
ghost use Rattle.mp_forms.specs.Faults.{IsFirst};
ghost use Rattle.mp_forms.specs.Reading.{Reading, Says, misshapen, besides, keyword};
ghost use Rattle.mp_factor.specs.Found.{found_in, both_found, said_found};
ghost use Rattle.mp_factor.specs.FoundForms.{domain_from, problem_from};
ghost use Rattle.mp_forms.specs.declared.word.Word.{Word as WordOf};
ghost use Rattle.mp_forms.specs.FromFile.{IsDomainOfFile, IsProblemOfFile};
ghost use Rattle.mp_factor.specs.OfFile.{own_words, other_words};
ghost use Rattle.mp_forms.specs.Rules.Typed.{names, objects};
ghost use Rattle.mp_forms.specs.Rules.Signatures.{predicates, functions};
ghost use Rattle.mp_forms.specs.Rules.Init.{empty_start};
ghost use Rattle.mp_forms.specs.Rules.Sections.{domain_words, problem_words, in_section, sections_rule, listed_rule, named_rule, start_rule, goal_rule, metric_rule};
ghost use Rattle.mp_forms.specs.Rules.Files.{domain_parts, problem_sections, title_rule, domain_rule, problem_rule, domain_faults, problem_faults};
ghost use Rattle.mp_factor.specs.Shapes.{Refuses};

use crate::files::{check_sections, read_title};
use crate::found::{Found, expect, pair, second, shape_fault};
use crate::refusal::{ShapeRefusal, refusal_of};
use crate::sections::{
    GoalForm, MetricForm, NamedForm, RequirementsForm, StartForm, read_actions, read_listed,
    read_section,
};
use crate::signature_values::{DeclaredFunction, DeclaredPredicate, with_private};
use crate::trees::{members, place};
use crate::typed_values::{NAMES, OBJECTS};
use mp_forms::{
    Domain, Fault, File, LiteralList, Problem, SchemaList, SignatureList, Start, TypedList, Word,
};
use mp_list::{List, OutOfMemory};
use mp_sexp::{Place, Tree};
use std::alloc::Global;

/// What a domain says, part by part, as far as its constants.
type ReadConstants = ((Word, TypedList), TypedList);

/// What a domain says, part by part, as far as its functions.
type ReadFunctions = ((ReadConstants, SignatureList), SignatureList);

/// What a domain says, part by part.
type ReadDomain = (ReadFunctions, SchemaList);

/// What a problem says, part by part, as far as its objects.
type ReadObjects = ((Word, Word), TypedList);

/// What a problem says, part by part, as far as its goal.
type ReadGoal = ((ReadObjects, Start), LiteralList);

/// What a problem says, part by part.
type ReadProblem = (ReadGoal, bool);

/// The predicates. Refuses only for want of memory.
fn read_predicates(alloc: Global, sections: &[Tree]) -> Result<Found<SignatureList>, OutOfMemory>
    ensures { IfOk result (λ found. found
        ≡ found_in (in_section (codes ":predicates") (listed_rule predicates) (Says []) (nodes_in sections.now))) }
{
    let predicates = with_private(false, DeclaredPredicate);
    read_listed(alloc, &predicates, sections, b":predicates")
}

/// The functions. Refuses only for want of memory.
fn read_functions(alloc: Global, sections: &[Tree]) -> Result<Found<SignatureList>, OutOfMemory>
    ensures { IfOk result (λ found. found
        ≡ found_in (in_section (codes ":functions") (listed_rule functions) (Says []) (nodes_in sections.now))) }
{
    let functions = with_private(true, DeclaredFunction);
    read_listed(alloc, &functions, sections, b":functions")
}

/// What a domain of this name says, part by part, as far as its constants. Refuses only for want of memory.
fn read_constants(
    alloc: Global,
    name: Found<Word>,
    sections: &[Tree],
) -> Result<Found<ReadConstants>, OutOfMemory>
    ensures { IfOk result (λ found. found ≡ both_found (λ a b. (a, b)) (both_found (λ a b. (a, b)) name
        (found_in (in_section (codes ":types") (listed_rule (names false)) (Says []) (nodes_in sections.now))))
        (found_in (in_section (codes ":constants") (listed_rule objects) (Says []) (nodes_in sections.now)))) }
{
    let types = pair(name, read_listed(alloc, &NAMES, sections, b":types")?);
    Ok(pair(
        types,
        read_listed(alloc, &OBJECTS, sections, b":constants")?,
    ))
}

/// What a domain says, part by part, as far as its functions, where it is known as far as its constants. Refuses only for
/// want of memory.
fn read_signatures(
    alloc: Global,
    known: Found<ReadConstants>,
    sections: &[Tree],
) -> Result<Found<ReadFunctions>, OutOfMemory>
    ensures { IfOk result (λ found. found ≡ both_found (λ a b. (a, b)) (both_found (λ a b. (a, b)) known
        (found_in (in_section (codes ":predicates") (listed_rule predicates) (Says []) (nodes_in sections.now))))
        (found_in (in_section (codes ":functions") (listed_rule functions) (Says []) (nodes_in sections.now)))) }
{
    let predicates = pair(known, read_predicates(alloc, sections)?);
    Ok(pair(predicates, read_functions(alloc, sections)?))
}

/// What a domain of this name says in its sections, part by part. Refuses only for want of memory.
fn read_domain_parts(
    alloc: Global,
    name: Found<Word>,
    sections: &[Tree],
) -> Result<Found<ReadDomain>, OutOfMemory>
    ensures { (reading : Reading WordOf) → name ≡ found_in reading → IfOk result (λ found.
        said_found domain_from found ≡ found_in (domain_parts reading (nodes_in sections.now))) }
{
    let constants = read_constants(alloc, name, sections)?;
    let functions = read_signatures(alloc, constants, sections)?;
    Ok(pair(functions, read_actions(alloc, sections)?))
}

/// What is wrong with the sections of a file, or with its requirements. Refuses only for want of memory.
#[tactic(auto, using(crate::proofs::FoundLemmas::found_both), unfolding(mp_forms::specs::Rules::Sections::sections_rule))]
fn check_file(alloc: Global, file: File, sections: &[Tree]) -> Result<Found<()>, OutOfMemory>
    ensures { IfOk result (λ found. found ≡ found_in (sections_rule (own_words file) (other_words file) (nodes_in sections.now))) }
{
    let right = check_sections(alloc, file, sections)?;
    let requirements = read_section(alloc, &RequirementsForm, sections, b":requirements", Ok(()))?;
    Ok(second(right, requirements))
}

/// What a domain of this title says, part by part. Refuses only for want of memory.
fn read_domain_members(
    alloc: Global,
    head: &Tree,
    title: &Tree,
    sections: &[Tree],
) -> Result<Found<ReadDomain>, OutOfMemory>
    ensures { IfOk result (λ found. said_found domain_from found ≡ found_in (besides (keyword (codes "define") (node_of head.now))
        (besides (sections_rule domain_words problem_words (nodes_in sections.now))
        (domain_parts (title_rule (codes "domain") (node_of title.now)) (nodes_in sections.now))))) }
{
    let define = expect(alloc, b"define", head);
    let right = check_file(alloc, File::Domain, sections)?;
    let name = read_title(alloc, File::Domain, title)?;
    let parts = read_domain_parts(alloc, name, sections)?;
    Ok(second(define, second(right, parts)))
}

/// What a domain's tree says, part by part. Refuses only for want of memory.
fn read_domain(alloc: Global, tree: &Tree) -> Result<Found<ReadDomain>, OutOfMemory>
    ensures { IfOk result (λ found. said_found domain_from found ≡ found_in (domain_rule (node_of tree.now))) }
{
    match members(tree) {
        [head, title, sections @ ..] => read_domain_members(alloc, head, title, sections),
        _ => Ok(shape_fault(alloc, place(tree))),
    }
}

/// The domain of these parts.
fn domain_with(parts: ReadDomain) -> Domain
    requires { IsDomainOfFile (domain_from parts) }
    ensures { result ≡ domain_from parts }
{
    let (((((word, types), constants), predicates), functions), schemas) = parts;
    Domain {
        word,
        types,
        constants,
        predicates,
        functions,
        schemas,
    }
}

/// What a domain's tree says, or its first fault by place, at one place by kind, and then by word.
///
/// Refuses with `Shape`, `Unsupported`, `Parameters` or `Cost` exactly where the first fault is of that kind.
pub fn domain(alloc: Global, tree: &Tree) -> Result<Domain, ShapeRefusal>
    ensures said { IfOk result (λ domain. domain_rule (node_of tree.now) ≡ Says domain) }
    ensures fault { IfErr result (Refuses (domain_rule (node_of tree.now))) }
{
    match read_domain(alloc, tree)? {
        Ok(parts) => Ok(domain_with(parts)),
        Err(fault) => Err(refusal_of(fault)),
    }
}

/// The first fault of what is found, where there is one.
fn fault_in<T: Drop>(found: Found<T>) -> Option<Fault>
    ensures { MatchOption result (IsOk found) (λ fault. found ≡ Err fault) }
{
    match found {
        Ok(_) => None,
        Err(fault) => Some(fault),
    }
}

/// What a problem of this name says in its sections, part by part, as far as its objects. Refuses only for want of
/// memory.
fn read_objects(
    alloc: Global,
    whole: Place,
    name: Found<Word>,
    sections: &[Tree],
) -> Result<Found<ReadObjects>, OutOfMemory>
    ensures { IfOk result (λ found. found ≡ both_found (λ a b. (a, b)) (both_found (λ a b. (a, b)) name
        (found_in (in_section (codes ":domain") named_rule (misshapen whole) (nodes_in sections.now))))
        (found_in (in_section (codes ":objects") (listed_rule objects) (Says []) (nodes_in sections.now)))) }
{
    let missing = shape_fault(alloc, whole);
    let domain = pair(
        name,
        read_section(alloc, &NamedForm, sections, b":domain", missing)?,
    );
    Ok(pair(domain, read_listed(alloc, &OBJECTS, sections, b":objects")?))
}

/// What a problem says, part by part, as far as its facts and values at the start, where it is known as far as its objects.
/// Refuses only for want of memory.
fn read_init(
    alloc: Global,
    known: Found<ReadObjects>,
    sections: &[Tree],
) -> Result<Found<(ReadObjects, Start)>, OutOfMemory>
    ensures { IfOk result (λ found. found ≡ both_found (λ a b. (a, b)) known
        (found_in (in_section (codes ":init") start_rule (Says empty_start) (nodes_in sections.now)))) }
{
    let none = Start {
        facts: List::new(alloc),
        values: List::new(alloc),
    };
    let start = read_section(alloc, &StartForm, sections, b":init", Ok(none))?;
    Ok(pair(known, start))
}

/// What a problem says, part by part, as far as its goal, where it is known as far as its start. Refuses only for want of
/// memory.
fn read_goal(
    alloc: Global,
    known: Found<(ReadObjects, Start)>,
    sections: &[Tree],
) -> Result<Found<ReadGoal>, OutOfMemory>
    ensures { IfOk result (λ found. found ≡ both_found (λ a b. (a, b)) known
        (found_in (in_section (codes ":goal") goal_rule (Says []) (nodes_in sections.now)))) }
{
    let goals = read_section(alloc, &GoalForm, sections, b":goal", Ok(List::new(alloc)))?;
    Ok(pair(known, goals))
}

/// What a problem says in its sections, part by part, where it is known as far as its objects. Refuses only for want of
/// memory.
fn read_behind_objects(
    alloc: Global,
    known: Found<ReadObjects>,
    sections: &[Tree],
) -> Result<Found<ReadProblem>, OutOfMemory>
    ensures { IfOk result (λ found. found ≡ both_found (λ a b. (a, b)) (both_found (λ a b. (a, b)) (both_found (λ a b. (a, b)) known
        (found_in (in_section (codes ":init") start_rule (Says empty_start) (nodes_in sections.now))))
        (found_in (in_section (codes ":goal") goal_rule (Says []) (nodes_in sections.now))))
        (found_in (in_section (codes ":metric") metric_rule (Says false) (nodes_in sections.now)))) }
{
    let start = read_init(alloc, known, sections)?;
    let goals = read_goal(alloc, start, sections)?;
    let metric = read_section(alloc, &MetricForm, sections, b":metric", Ok(false))?;
    Ok(pair(goals, metric))
}

/// What a problem of this title says, part by part. Refuses only for want of memory.
fn read_problem_members(
    alloc: Global,
    whole: Place,
    head: &Tree,
    title: &Tree,
    sections: &[Tree],
) -> Result<Found<ReadProblem>, OutOfMemory>
    ensures { IfOk result (λ found. said_found problem_from found ≡ found_in (besides (keyword (codes "define") (node_of head.now))
        (problem_sections whole (title_rule (codes "problem") (node_of title.now)) (nodes_in sections.now)))) }
{
    let define = expect(alloc, b"define", head);
    let right = check_file(alloc, File::Problem, sections)?;
    let name = read_title(alloc, File::Problem, title)?;
    let known = read_objects(alloc, whole, name, sections)?;
    let parts = read_behind_objects(alloc, known, sections)?;
    Ok(second(define, second(right, parts)))
}

/// What a problem's tree says, part by part. Refuses only for want of memory.
fn read_problem(alloc: Global, tree: &Tree) -> Result<Found<ReadProblem>, OutOfMemory>
    ensures { IfOk result (λ found. said_found problem_from found ≡ found_in (problem_rule (node_of tree.now))) }
{
    match members(tree) {
        [head, title, sections @ ..] => {
            read_problem_members(alloc, place(tree), head, title, sections)
        }
        _ => Ok(shape_fault(alloc, place(tree))),
    }
}

/// The problem of these parts.
fn problem_with(parts: ReadProblem) -> Problem
    requires { IsProblemOfFile (problem_from parts) }
    ensures { result ≡ problem_from parts }
{
    let (((((word, domain), objects), start), goals), metric) = parts;
    let Start { facts, values } = start;
    Problem {
        word,
        domain,
        objects,
        init: facts,
        values,
        goals,
        metric,
    }
}

/// What a problem's tree says, or its first fault by place, at one place by kind, and then by word.
///
/// Refuses with `Shape`, `Unsupported` or `Cost` exactly where the first fault is of that kind.
pub fn problem(alloc: Global, tree: &Tree) -> Result<Problem, ShapeRefusal>
    ensures said { IfOk result (λ problem. problem_rule (node_of tree.now) ≡ Says problem) }
    ensures fault { IfErr result (Refuses (problem_rule (node_of tree.now))) }
{
    match read_problem(alloc, tree)? {
        Ok(parts) => Ok(problem_with(parts)),
        Err(fault) => Err(refusal_of(fault)),
    }
}

/// What a problem's tree says, or why it is refused, as [`problem`] answers, for a tree of which nobody has more need.
pub fn into_problem(alloc: Global, tree: Tree) -> Result<Problem, ShapeRefusal>
    ensures said { IfOk result (λ problem. problem_rule (node_of tree) ≡ Says problem) }
    ensures fault { IfErr result (Refuses (problem_rule (node_of tree))) }
{
    problem(alloc, &tree)
}

/// The first fault of a domain's tree, by its place, its kind and its word: none exactly where the tree
/// has the shape of a factor's domain. Refuses only for want of memory.
pub fn domain_fault(alloc: Global, tree: &Tree) -> Result<Option<Fault>, OutOfMemory>
    ensures { IfOk result (λ first. MatchOption first (domain_faults (node_of tree.now) ≡ [])
        (λ fault. IsFirst (domain_faults (node_of tree.now)) fault)) }
{
    Ok(fault_in(read_domain(alloc, tree)?))
}

/// The first fault of a problem's tree, by its place, its kind and its word: none exactly where the tree
/// has the shape of a factor's problem. Refuses only for want of memory.
pub fn problem_fault(alloc: Global, tree: &Tree) -> Result<Option<Fault>, OutOfMemory>
    ensures { IfOk result (λ first. MatchOption first (problem_faults (node_of tree.now) ≡ [])
        (λ fault. IsFirst (problem_faults (node_of tree.now)) fault)) }
{
    Ok(fault_in(read_problem(alloc, tree)?))
}
