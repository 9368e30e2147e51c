//! The objects that actions name: constants of the united domain.

use mp_forms::{Atom, AtomList, Increase, LiteralList, Schema, Term};
use mp_list::OutOfMemory;
use mp_messages::Bytes;
use mp_united_names::UnitedAgent;

/// Appends a line for each object among the terms of an atom.
fn push_named(out: &mut Bytes, agent: &UnitedAgent<'_>, atom: &Atom) -> Result<(), OutOfMemory> {
    for term in atom.terms.as_slice() {
        if let Term::Object(word) = term {
            out.extend_from_slice(b"  ")?;
            agent.push_object(out, &word.name)?;
            out.push(b'\n')?;
        }
    }
    Ok(())
}

/// Appends a line for each object that atoms name.
fn push_of_atoms(
    out: &mut Bytes,
    agent: &UnitedAgent<'_>,
    atoms: &AtomList,
) -> Result<(), OutOfMemory> {
    for atom in atoms.as_slice() {
        push_named(out, agent, atom)?;
    }
    Ok(())
}

/// Appends a line for each object that literals name.
fn push_of_literals(
    out: &mut Bytes,
    agent: &UnitedAgent<'_>,
    literals: &LiteralList,
) -> Result<(), OutOfMemory> {
    for literal in literals.as_slice() {
        push_named(out, agent, &literal.atom)?;
    }
    Ok(())
}

/// Appends a line for each object that an action names.
fn push_of_schema(
    out: &mut Bytes,
    agent: &UnitedAgent<'_>,
    schema: &Schema,
) -> Result<(), OutOfMemory> {
    push_of_literals(out, agent, &schema.pre)?;
    push_of_atoms(out, agent, &schema.add)?;
    push_of_atoms(out, agent, &schema.del)?;
    for increase in schema.increases.as_slice() {
        if let Increase::Function(of) = increase {
            push_named(out, agent, of)?;
        }
    }
    Ok(())
}

/// Appends a line for each object that an action of an agent names.
fn push_of_agent(out: &mut Bytes, agent: &UnitedAgent<'_>) -> Result<(), OutOfMemory> {
    for schema in agent.domain().schemas.as_slice() {
        push_of_schema(out, agent, schema)?;
    }
    Ok(())
}

/// Appends a line for each object that an action of a team names.
pub fn push_constants(out: &mut Bytes, team: &[UnitedAgent<'_>]) -> Result<(), OutOfMemory> {
    for agent in team {
        push_of_agent(out, agent)?;
    }
    Ok(())
}
