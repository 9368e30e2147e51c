//! How many dashes stand in a row in the names of a team.

use mp_forms::{Factor, Schema, SchemaList, Signature, Typed};
use mp_sexp::Name;
use mp_typing::CheckedFactor;

/// The most dashes that stand in a row in a text.
fn longest_run(text: &[u8]) -> usize {
    let mut longest = 0;
    let mut run: usize = 0;
    for byte in text {
        if *byte == b'-' {
            run = run.saturating_add(1);
            longest = run.max(longest);
        } else {
            run = 0;
        }
    }
    longest
}

/// So many, or as many as stand in a row in a name, whichever is more.
fn with_name(longest: usize, name: &Name) -> usize {
    longest_run(name.as_slice()).max(longest)
}

/// The same for the names of objects or types.
fn with_typed(longest: usize, list: &[Typed]) -> usize {
    let mut most = longest;
    for typed in list {
        most = with_name(most, &typed.word.name);
    }
    most
}

/// The same for the names of predicates or functions.
fn with_signatures(longest: usize, list: &[Signature]) -> usize {
    let mut most = longest;
    for signature in list {
        most = with_name(most, &signature.word.name);
    }
    most
}

/// The same for the types of a parameter.
fn with_types(longest: usize, param: &Typed) -> usize {
    let mut most = longest;
    for word in param.types.as_slice() {
        most = with_name(most, &word.name);
    }
    most
}

/// The same for the name of an action and the types of its parameters.
fn with_schema(longest: usize, schema: &Schema) -> usize {
    let mut most = with_name(longest, &schema.word.name);
    for param in schema.params.as_slice() {
        most = with_types(most, param);
    }
    most
}

/// The same for actions.
fn with_schemas(longest: usize, schemas: &SchemaList) -> usize {
    let mut most = longest;
    for schema in schemas.as_slice() {
        most = with_schema(most, schema);
    }
    most
}

/// The same for all names of a factor that its united problem has.
fn with_factor(longest: usize, factor: &Factor) -> usize {
    let most = with_typed(longest, factor.domain.constants.as_slice());
    let most = with_typed(most, factor.problem.objects.as_slice());
    let most = with_signatures(most, factor.domain.predicates.as_slice());
    let most = with_signatures(most, factor.domain.functions.as_slice());
    with_schemas(most, &factor.domain.schemas)
}

/// One dash more than stand in a row in any name of a team.
pub(crate) fn dashes_of(team: &[CheckedFactor]) -> usize {
    let mut most = 0;
    for checked in team {
        most = with_factor(most, checked.factor());
    }
    most.saturating_add(1)
}
