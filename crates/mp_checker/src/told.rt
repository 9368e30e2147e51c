//! Literals by names where objects stand for the parameters.

ghost use Rattle.std.specs.Prelude.{◌≡◌, IfOk};
ghost use Rattle.std.specs.List.{list_any};
ghost use Rattle.mp_joint.specs.Fact.{named as named_of, is_listed};
ghost use Rattle.mp_joint.specs.Grounding.{standing_for as object_for, object_of as object_in, objects_of as objects_in, fact_of};
ghost use Rattle.mp_lifting.specs.Privates.{private_in};

use mp_forms::{Literal, Term, TermList, Typed, TypedList};
use mp_joint::{NamedFact, SignedFact};
use mp_lifting::PrivateNames;
use mp_list::{Copied, List, OutOfMemory};
use mp_sets::Agent;
use mp_sexp::{Name, NameList};
use std::alloc::Global;

/// The object that stands for a variable, and the variable where it is no parameter.
fn standing_for<'a>(params: &[Typed], objects: &'a [Name], variable: &'a Name) -> &'a Name
    ensures { result.now ≡ object_for params.now objects.now variable.now }
{
    match params {
        [] => variable,
        [param, others @ ..] => match objects {
            [] => variable,
            [object, rest @ ..] => {
                if param.word.name.as_slice() == variable.as_slice() {
                    object
                } else {
                    standing_for(others, rest, variable)
                }
            }
        },
    }
}

/// The object that a term is.
fn object_of<'a>(params: &[Typed], objects: &'a [Name], term: &'a Term) -> &'a Name
    ensures { result.now ≡ object_in params.now objects.now term.now }
{
    match term {
        Term::Variable(word) => standing_for(params, objects, &word.name),
        Term::Object(word) => &word.name,
    }
}

/// The objects that terms are.
fn objects_of(
    alloc: Global,
    params: &[Typed],
    objects: &[Name],
    terms: &TermList,
) -> Result<NameList, OutOfMemory>
    ensures { IfOk result (λ names. names ≡ objects_in params.now objects.now terms.now) }
{
    let mut names = List::with_capacity(alloc, terms.len())?;
    for term in terms.as_slice() {
        names.push(object_of(params, objects, term).copy()?)?;
    }
    Ok(names)
}

/// Whether one of these names is a private object.
fn has_private(privates: &PrivateNames<'_>, names: &[Name]) -> bool
    ensures { result ≡ list_any (λ n. is_listed n privates.now.objects) names.now }
{
    for name in names {
        if privates.objects.contains(name) {
            return true;
        }
    }
    false
}

/// The fact of a predicate at objects.
fn named(agent: Agent, privates: &PrivateNames<'_>, predicate: Name, args: NameList) -> NamedFact
    ensures { result ≡ named_of agent (private_in privates.now) predicate args }
{
    let is_private = privates.predicates.contains(&predicate)
        || has_private(privates, args.as_slice());
    let owner = if is_private { Some(agent) } else { None };
    NamedFact {
        owner,
        predicate,
        args,
    }
}

/// What a literal asks for where these objects stand for these parameters. Refuses only for want of memory.
pub fn signed_fact(
    alloc: Global,
    agent: Agent,
    privates: &PrivateNames<'_>,
    params: &TypedList,
    objects: &NameList,
    literal: &Literal,
) -> Result<SignedFact, OutOfMemory>
    ensures { IfOk result (λ made. made ≡ record {
      positive = literal.now.positive;
      fact = fact_of agent (private_in privates.now) params.now objects.now literal.now.atom;
    }) }
{
    let predicate = literal.atom.word.name.copy()?;
    let args = objects_of(
        alloc,
        params.as_slice(),
        objects.as_slice(),
        &literal.atom.terms,
    )?;
    Ok(SignedFact {
        positive: literal.positive,
        fact: named(agent, privates, predicate, args),
    })
}
