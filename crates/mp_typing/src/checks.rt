//! Checks of a factor: its domain's name, names that are not declared, numbers of terms, and names declared twice.

ghost use Rattle.std.specs.Prelude.{◌≡◌, [], None, Some, IfOk, IfErr, MatchResult};
ghost use Rattle.std.specs.List.{flat_map};
ghost use Rattle.mp_typing.specs.Faults.{leftmost};
ghost use Rattle.mp_typing.specs.Hierarchy.{IsHierarchy};
ghost use Rattle.mp_typing.specs.Lookups.{factor_of, objects_of};
ghost use Rattle.mp_typing.specs.ObjectList.{object_list};
ghost use Rattle.mp_typing.specs.CheckFaults.{owner_faults, schema_faults, declared_faults, value_faults, problem_faults, check_faults};
ghost use Rattle.mp_typing.specs.Repeats.{object_faults};
ghost use Rattle.mp_typing.specs.Refused.{RestsOn, refusal_of};

use crate::checked::CheckedFactor;
use crate::declared::Declared;
use crate::each::{Check, each_fault};
use crate::fault::{Fault, FaultKind, with};
use crate::hierarchy::Hierarchy;
use crate::parameters::parameters_fault;
use crate::refusal::CheckRefusal;
use crate::repeats::{Unlike, objects_fault, repeated_fault};
use crate::uses::{Scope, atoms_fault, increases_fault, literals_fault};
use mp_forms::{Domain, File, Problem, Schema, Value, Word};
use mp_list::OutOfMemory;
use std::alloc::Global;

/// The first fault, with that of a problem that belongs to another domain. Refuses only for want of memory.
#[tactic(auto, unfolding(crate::specs::CheckFaults::owner_faults))]
fn owner_fault(
    least: Option<Fault>,
    name: &Word,
    owner: &Word,
) -> Result<Option<Fault>, OutOfMemory>
    ensures { IfOk result (λ first. first ≡ leftmost least (owner_faults name.now owner.now)) }
{
    if owner.name.as_slice() == name.name.as_slice() {
        Ok(least)
    } else {
        with(least, FaultKind::WrongDomain, File::Problem, owner)
    }
}

/// The actions of a domain, under what is declared.
#[derive(Clone, Copy)]
struct Actions<'s, 'd> {
    declared: &'s Declared<'d>,
}

#[tactic(auto, using(mp_list::proofs::FirstLemmas::leftmost_append), unfolding(crate::specs::CheckFaults::schema_faults))]
impl<'s, 'd> Check<Schema> for Actions<'s, 'd> {
    ghost faults = { λ actions schema. schema_faults actions.declared.now schema };

    fn fault(&self, least: Option<Fault>, schema: &Schema) -> Result<Option<Fault>, OutOfMemory> {
        let params = schema.params.as_slice();
        let scope = Scope {
            file: File::Domain,
            params,
            declared: self.declared,
        };
        let listed = parameters_fault(least, params)?;
        let pre = literals_fault(listed, &scope, schema.pre.as_slice())?;
        let add = atoms_fault(pre, &scope, schema.add.as_slice())?;
        let del = atoms_fault(add, &scope, schema.del.as_slice())?;
        increases_fault(del, &scope, schema.increases.as_slice())
    }
}

/// The first fault, with those of actions. Refuses only for want of memory.
fn schemas_fault(
    least: Option<Fault>,
    declared: &Declared,
    schemas: &[Schema],
) -> Result<Option<Fault>, OutOfMemory>
    ensures { IfOk result (λ first. first ≡ leftmost least (flat_map (schema_faults declared.now) schemas.now)) }
{
    each_fault(least, &Actions { declared }, schemas)
}

/// The first fault, with those of the names that a domain declares. Refuses only for want of memory.
#[tactic(auto, using(mp_list::proofs::FirstLemmas::leftmost_append), unfolding(crate::specs::CheckFaults::declared_faults))]
fn declared_fault(
    alloc: Global,
    least: Option<Fault>,
    declared: &Declared,
    domain: &Domain,
) -> Result<Option<Fault>, OutOfMemory>
    ensures { IfOk result (λ first. first ≡ leftmost least (declared_faults (objects_of declared.now) domain.now)) }
{
    let file = File::Domain;
    let unlike = Unlike { file, declared };
    let objects = objects_fault(least, &unlike, domain.constants.as_slice())?;
    let predicates = repeated_fault(alloc, objects, file, domain.predicates.as_slice())?;
    let functions = repeated_fault(alloc, predicates, file, domain.functions.as_slice())?;
    repeated_fault(alloc, functions, file, domain.schemas.as_slice())
}

/// The first fault, with those of values at the start. Refuses only for want of memory.
fn values_fault(
    least: Option<Fault>,
    declared: &Declared,
    values: &[Value],
) -> Result<Option<Fault>, OutOfMemory>
    ensures { IfOk result (λ first. first ≡ leftmost least (flat_map (value_faults declared.now) values.now)) }
{
    let scope = Scope {
        file: File::Problem,
        params: &[],
        declared,
    };
    each_fault(least, &scope, values)
}

/// The first fault, with those of a problem's objects. Where each object has a name of its own, as in nearly every
/// problem, each is the first of its name, and none is looked up. Refuses only for want of memory.
#[tactic(auto, using(crate::proofs::DistinctLemmas::none_unlike))]
fn problem_objects_fault(
    least: Option<Fault>,
    declared: &Declared,
    problem: &Problem,
) -> Result<Option<Fault>, OutOfMemory>
    requires { declared.now.problem ≡ problem.now }
    ensures { IfOk result (λ first. first ≡ leftmost least (flat_map (object_faults File.Problem (objects_of declared.now)) problem.now.objects)) }
{
    if declared.is_distinct() {
        return Ok(least);
    }
    let unlike = Unlike {
        file: File::Problem,
        declared,
    };
    objects_fault(least, &unlike, problem.objects.as_slice())
}

/// The first fault, with those of a problem. Refuses only for want of memory.
#[tactic(auto, using(mp_list::proofs::FirstLemmas::leftmost_append), unfolding(crate::specs::CheckFaults::problem_faults))]
fn problem_fault(
    least: Option<Fault>,
    declared: &Declared,
    problem: &Problem,
) -> Result<Option<Fault>, OutOfMemory>
    requires { declared.now.problem ≡ problem.now }
    ensures { IfOk result (λ first. first ≡ leftmost least (problem_faults declared.now)) }
{
    let scope = Scope {
        file: File::Problem,
        params: &[],
        declared,
    };
    let objects = problem_objects_fault(least, declared, problem)?;
    let init = atoms_fault(objects, &scope, problem.init.as_slice())?;
    let values = values_fault(init, declared, problem.values.as_slice())?;
    literals_fault(values, &scope, problem.goals.as_slice())
}

/// The first fault of a factor. Refuses only for want of memory.
#[tactic(auto, using(mp_list::proofs::FirstLemmas::leftmost_append), unfolding(crate::specs::CheckFaults::check_faults))]
fn first_fault(
    alloc: Global,
    declared: &Declared,
    domain: &Domain,
    problem: &Problem,
) -> Result<Option<Fault>, OutOfMemory>
    requires { declared.now ≡ factor_of domain.now problem.now }
    ensures { IfOk result (λ first. first ≡ leftmost None (check_faults domain.now problem.now)) }
{
    let owner = owner_fault(None, &domain.word, &problem.domain)?;
    let names = declared_fault(alloc, owner, declared, domain)?;
    let schemas = schemas_fault(names, declared, domain.schemas.as_slice())?;
    problem_fault(schemas, declared, problem)
}

/// The order of a factor's types, and the types of its objects. Refuses only for want of memory.
fn hierarchy_of(
    alloc: Global,
    declared: Declared,
    domain: &Domain,
) -> Result<Hierarchy, OutOfMemory>
    requires { declared.domain ≡ domain.now }
    ensures { IfOk result (λ h. IsHierarchy domain.now.types (object_list declared.entry.domain declared.entry.problem) h) }
{
    let objects = declared.into_listed();
    Hierarchy::new(alloc, &domain.types, &objects)
}

/// The order of a factor's types and the types of its objects, or its first fault. Refuses only for want of memory.
fn hierarchy_or_fault(
    alloc: Global,
    domain: &Domain,
    problem: &Problem,
) -> Result<Result<Hierarchy, Fault>, OutOfMemory>
    ensures { IfOk result (λ found. MatchResult found
        (λ h. (None ≡ leftmost None (check_faults domain.now problem.now)) × IsHierarchy domain.now.types (object_list domain.now problem.now) h)
        (λ fault. Some fault ≡ leftmost None (check_faults domain.now problem.now))) }
{
    let declared = Declared::new(alloc, domain, problem)?;
    match first_fault(alloc, &declared, domain, problem)? {
        Some(fault) => Ok(Err(fault)),
        None => Ok(Ok(hierarchy_of(alloc, declared, domain)?)),
    }
}

/// The refusal that says a fault.
fn refusal(fault: Fault) -> CheckRefusal
    ensures { result ≡ refusal_of fault }
{
    let Fault { kind, found } = fault;
    match kind {
        FaultKind::WrongDomain => CheckRefusal::WrongDomain(found),
        FaultKind::Unknown => CheckRefusal::UnknownName(found),
        FaultKind::Arity => CheckRefusal::Arity(found),
        FaultKind::Twice => CheckRefusal::Twice(found),
    }
}

/// Checks what two files say. Refuses the first fault of the factor: a problem of another domain before all else, and
/// then by place, the domain before the problem, and at one place an unknown name, then a number of terms, then a
/// second declaration. Refuses also for want of memory.
#[tactic(auto, using(crate::proofs::CheckLemmas::none_found, crate::proofs::CheckLemmas::rests_on))]
pub fn check(alloc: Global, domain: Domain, problem: Problem) -> Result<CheckedFactor, CheckRefusal>
    ensures given { IfOk result (λ checked. checked ≡ record { domain = domain; problem = problem }) }
    ensures accepted { IfOk result (λ checked. check_faults domain problem ≡ []) }
    ensures refused { IfErr result (λ refusal. RestsOn (check_faults domain problem) refusal) }
{
    match hierarchy_or_fault(alloc, &domain, &problem)? {
        Ok(hierarchy) => Ok(CheckedFactor::of(alloc, domain, problem, hierarchy)),
        Err(fault) => Err(refusal(fault)),
    }
}
