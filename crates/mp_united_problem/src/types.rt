//! Which objects of an agent may stand for its parameters.

use mp_forms::{Schema, SchemaList, Typed, WordList};
use mp_list::{Copied, List, OutOfMemory};
use mp_messages::Bytes;
use mp_sexp::Name;
use mp_typing::{CheckedFactor, ObjectList, TypeList};
use mp_united_names::{TextSet, UnitedAgent, first_line};
use std::alloc::Global;

/// The names of types.
fn names_of(alloc: Global, words: &WordList) -> Result<TypeList, OutOfMemory> {
    let mut names = List::with_capacity(alloc, words.len())?;
    for word in words.as_slice() {
        names.push(word.name.copy()?)?;
    }
    Ok(names)
}

/// The places of the objects that may stand for a parameter, in object order.
fn members_of(
    alloc: Global,
    checked: &CheckedFactor,
    param: &Typed,
) -> Result<ObjectList, OutOfMemory> {
    let asked = names_of(alloc, &param.types)?;
    checked.members(&asked)
}

/// Adds the names that are not among these yet.
fn add_names<'a>(
    names: &mut Vec<&'a Name>,
    seen: &mut TextSet<'a>,
    objects: &'a [Typed],
) -> Result<(), OutOfMemory> {
    for object in objects {
        if seen.insert(object.word.name.as_slice())? {
            names.push(&object.word.name)?;
        }
    }
    Ok(())
}

/// The objects of a factor in object order, each once.
fn objects_of(alloc: Global, checked: &CheckedFactor) -> Result<Vec<&Name>, OutOfMemory> {
    let mut names = Vec::new(alloc);
    let mut seen = TextSet::new(alloc);
    let factor = checked.factor();
    add_names(&mut names, &mut seen, factor.domain.constants.as_slice())?;
    add_names(&mut names, &mut seen, factor.problem.objects.as_slice())?;
    Ok(names)
}

/// Appends the line of a fact: what it begins with, and an object.
fn push_fact(
    out: &mut Bytes,
    agent: &UnitedAgent<'_>,
    head: &[u8],
    object: &Name,
) -> Result<(), OutOfMemory> {
    out.extend_from_slice(head)?;
    agent.push_object(out, object)?;
    out.extend_from_slice(b")\n")
}

/// Appends the lines of the facts that begin so, for the objects at these places.
fn push_facts(
    out: &mut Bytes,
    agent: &UnitedAgent<'_>,
    head: &[u8],
    objects: &[&Name],
    places: &[u64],
) -> Result<(), OutOfMemory> {
    for place in places {
        if let Some(object) = objects.get(*place as usize) {
            push_fact(out, agent, head, object)?;
        }
    }
    Ok(())
}

/// Appends the lines of the facts that begin so, for the objects that may stand for a parameter.
fn push_members(
    alloc: Global,
    out: &mut Bytes,
    agent: &UnitedAgent<'_>,
    head: &[u8],
    objects: &[&Name],
    param: &Typed,
) -> Result<(), OutOfMemory> {
    let places = members_of(alloc, agent.checked, param)?;
    push_facts(out, agent, head, objects, places.as_slice())
}

/// Appends, for each parameter of an action, a line of what the facts about its type begin with.
fn push_heads(
    out: &mut Bytes,
    agent: &UnitedAgent<'_>,
    schema: &Schema,
) -> Result<(), OutOfMemory> {
    for param in schema.params.as_slice() {
        out.extend_from_slice(b"  (")?;
        agent.push_type_test(out, param)?;
        out.extend_from_slice(b" \n")?;
    }
    Ok(())
}

/// Appends, for each parameter of each action, a line of what the facts about its type begin with.
fn push_all_heads(
    out: &mut Bytes,
    agent: &UnitedAgent<'_>,
    schemas: &SchemaList,
) -> Result<(), OutOfMemory> {
    for schema in schemas.as_slice() {
        push_heads(out, agent, schema)?;
    }
    Ok(())
}

/// Bytes without the line feed at their end.
fn without_end(line: &[u8]) -> &[u8] {
    match line {
        [before @ .., b'\n'] => before,
        _ => line,
    }
}

/// Appends the lines of the facts about the types of some parameters whose beginnings are the first lines of a text, as far
/// as the beginnings are new. Gives what is left of the text.
fn push_of_params<'a>(
    alloc: Global,
    out: &mut Bytes,
    agent: &UnitedAgent<'_>,
    objects: &[&Name],
    params: &[Typed],
    seen: &mut TextSet<'a>,
    heads: &'a [u8],
) -> Result<&'a [u8], OutOfMemory> {
    let mut rest = heads;
    for param in params {
        let (line, later) = first_line(rest);
        rest = later;
        let head = without_end(line);
        if seen.insert(head)? {
            push_members(alloc, out, agent, head, objects, param)?;
        }
    }
    Ok(rest)
}

/// Appends the lines of the facts about the types of all parameters, whose beginnings are the lines of a text.
fn push_of_schemas(
    alloc: Global,
    out: &mut Bytes,
    agent: &UnitedAgent<'_>,
    objects: &[&Name],
    heads: &[u8],
) -> Result<(), OutOfMemory> {
    let mut seen = TextSet::new(alloc);
    let mut rest = heads;
    for schema in agent.domain().schemas.as_slice() {
        let params = schema.params.as_slice();
        rest = push_of_params(alloc, out, agent, objects, params, &mut seen, rest)?;
    }
    Ok(())
}

/// Appends the lines of the facts about the types of all parameters of an agent's actions: for each type once, which of
/// its objects are of it.
pub(crate) fn push_type_facts(
    alloc: Global,
    out: &mut Bytes,
    agent: &UnitedAgent<'_>,
) -> Result<(), OutOfMemory> {
    let mut heads = List::new(alloc);
    push_all_heads(&mut heads, agent, &agent.domain().schemas)?;
    let objects = objects_of(alloc, agent.checked)?;
    push_of_schemas(alloc, out, agent, objects.as_slice(), heads.as_slice())
}
