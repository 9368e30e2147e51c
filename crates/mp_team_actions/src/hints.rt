//! Which actions there is a hint on.

use crate::lacking::{tell_unmet, tell_unpriced};
use crate::objects::object_names;
use mp_forms::{Factor, Schema};
use mp_lifted::{LiftedAction, LiftedFactor, StartFacts};
use mp_lifting::{OpenView, lift};
use mp_list::OutOfMemory;
use mp_sexp::NameTable;
use mp_team_bindings::{
    Counts, Priced, Scratch, Tests, cause_of, count_bindings, empty_scratch, priced_by,
};
use mp_typing::CheckedFactor;
use std::alloc::Global;

/// The most bindings that `maplan` tries for an agent.
const MOST: u64 = 50_000_000;

/// A factor with all that is looked up in it.
#[derive(Clone, Copy)]
struct Known<'b, 'a> {
    file: &'b str,
    factor: &'b Factor,
    lifted: &'b LiftedFactor,
    start: &'b StartFacts<'a>,
    priced: &'b Priced<'a>,
    names: &'b NameTable<'a>,
}

/// Tells what there is to say of an action of whose bindings this came.
fn tell(
    out: &mut String,
    known: Known<'_, '_>,
    schema: &Schema,
    action: &LiftedAction,
    counts: Counts,
    lacking: &[u32],
) -> Result<(), OutOfMemory> {
    if counts.met == 0 {
        let cause = cause_of(&known.factor.domain, schema, known.lifted, action);
        return tell_unmet(out, known.file, schema, cause);
    }
    if counts.unpriced > 0 {
        return tell_unpriced(out, known.file, known.names, schema, counts, lacking);
    }
    Ok(())
}

/// Tells what there is to say of an action, where so many bindings may be tried: how many were.
fn tell_action(
    out: &mut String,
    known: Known<'_, '_>,
    schema: &Schema,
    action: &LiftedAction,
    limit: u64,
    scratch: &mut Scratch,
) -> Result<u64, OutOfMemory> {
    let tests = Tests {
        start: known.start,
        priced: known.priced,
        action,
        limit,
    };
    let counts = count_bindings(tests, scratch)?;
    if counts.tried <= limit {
        tell(
            out,
            known,
            schema,
            action,
            counts,
            scratch.lacking.as_slice(),
        )?;
    }
    Ok(counts.tried)
}

/// Tells what there is to say of all actions: how many bindings were tried, none where they are too many.
fn tell_actions(
    out: &mut String,
    known: Known<'_, '_>,
    scratch: &mut Scratch,
) -> Result<Option<u64>, OutOfMemory> {
    let mut left = MOST;
    let factor = known.factor;
    let schemas = factor.domain.schemas.as_slice();
    for (place, action) in known.lifted.actions.as_slice().iter().enumerate() {
        if let Some(schema) = schemas.get(place) {
            let tried = tell_action(out, known, schema, action, left, scratch)?;
            match left.checked_sub(tried) {
                Some(rest) => left = rest,
                None => return Ok(None),
            }
        }
    }
    Ok(Some(MOST.saturating_sub(left)))
}

/// The same for a factor in numbers.
fn tell_lifted(
    alloc: Global,
    out: &mut String,
    file: &str,
    factor: &Factor,
    lifted: &LiftedFactor,
) -> Result<Option<u64>, OutOfMemory> {
    let names = object_names(alloc, factor)?;
    let priced = priced_by(alloc, lifted.values.as_slice())?;
    let start = StartFacts::new(alloc, lifted)?;
    let mut scratch = empty_scratch(alloc);
    let known = Known {
        file,
        factor,
        lifted,
        start: &start,
        priced: &priced,
        names: &names,
    };
    tell_actions(out, known, &mut scratch)
}

/// Writes hints on the actions of a factor, whose domain's file has this name, where this is known of all agents: actions
/// without instances, with the static precondition that no objects meet, and bindings without a cost, with the value that
/// is missing. Gives how many bindings are tried, as `maplan` tries them; none where they are more than 50,000,000. Refuses
/// only for want of memory.
pub fn explain_actions(
    alloc: Global,
    out: &mut String,
    checked: &CheckedFactor,
    known: &OpenView,
    file: &str,
) -> Result<Option<u64>, OutOfMemory> {
    let lifted = lift(alloc, checked, known)?;
    tell_lifted(alloc, out, file, checked.factor(), &lifted)
}
