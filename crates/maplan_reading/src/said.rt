//! What a file says, as lines, one for each item.

use crate::words::{show, show_number, show_word};
use mp_forms::{
    Atom, Domain, Increase, Literal, Problem, Schema, Signature, Term, Typed, Value, Word,
};
use mp_list::OutOfMemory;

/// Adds the beginning of a line: whether the item is private, and what it is.
fn show_kind(out: &mut Vec<u8>, private: bool, kind: &[u8]) -> Result<(), OutOfMemory> {
    show(out, if private { b"  private " } else { b"  " })?;
    show(out, kind)?;
    show(out, b" ")
}

/// Adds the line of an item that is a word.
fn show_line(out: &mut Vec<u8>, kind: &[u8], word: &Word) -> Result<(), OutOfMemory> {
    show_kind(out, false, kind)?;
    show_word(out, word)?;
    show(out, b"\n")
}

/// Adds ` - (either TYPE ..)`.
fn show_either(out: &mut Vec<u8>, types: &[Word]) -> Result<(), OutOfMemory> {
    show(out, b" - (either")?;
    for word in types {
        show(out, b" ")?;
        show_word(out, word)?;
    }
    show(out, b")")
}

/// Adds the types of an item: nothing where it has none.
fn show_types(out: &mut Vec<u8>, types: &[Word]) -> Result<(), OutOfMemory> {
    match types {
        [] => Ok(()),
        [word] => {
            show(out, b" - ")?;
            show_word(out, word)
        }
        _ => show_either(out, types),
    }
}

/// Adds a name or variable and its types.
fn show_typed(out: &mut Vec<u8>, typed: &Typed) -> Result<(), OutOfMemory> {
    show_word(out, &typed.word)?;
    show_types(out, typed.types.as_slice())
}

/// Adds the lines of types, objects or parameters.
fn show_all_typed(out: &mut Vec<u8>, kind: &[u8], list: &[Typed]) -> Result<(), OutOfMemory> {
    for typed in list {
        show_kind(out, typed.private, kind)?;
        show_typed(out, typed)?;
        show(out, b"\n")?;
    }
    Ok(())
}

/// Adds `(NAME PARAMETER ..)`.
fn show_signature(out: &mut Vec<u8>, signature: &Signature) -> Result<(), OutOfMemory> {
    show(out, b"(")?;
    show_word(out, &signature.word)?;
    for typed in signature.params.as_slice() {
        show(out, b" ")?;
        show_typed(out, typed)?;
    }
    show(out, b")\n")
}

/// Adds the lines of predicates or functions.
fn show_signatures(out: &mut Vec<u8>, kind: &[u8], list: &[Signature]) -> Result<(), OutOfMemory> {
    for signature in list {
        show_kind(out, signature.private, kind)?;
        show_signature(out, signature)?;
    }
    Ok(())
}

/// Adds ` VARIABLE` or ` 'OBJECT`.
fn show_term(out: &mut Vec<u8>, term: &Term) -> Result<(), OutOfMemory> {
    match term {
        Term::Variable(word) => {
            show(out, b" ")?;
            show_word(out, word)
        }
        Term::Object(word) => {
            show(out, b" '")?;
            show_word(out, word)
        }
    }
}

/// Adds `(NAME TERM ..)`.
fn show_atom(out: &mut Vec<u8>, atom: &Atom) -> Result<(), OutOfMemory> {
    show(out, b"(")?;
    show_word(out, &atom.word)?;
    for term in atom.terms.as_slice() {
        show_term(out, term)?;
    }
    show(out, b")")
}

/// Adds the lines of atoms.
fn show_atoms(out: &mut Vec<u8>, kind: &[u8], list: &[Atom]) -> Result<(), OutOfMemory> {
    for atom in list {
        show_kind(out, false, kind)?;
        show_atom(out, atom)?;
        show(out, b"\n")?;
    }
    Ok(())
}

/// Adds an atom, or `(not ATOM)`.
fn show_literal(out: &mut Vec<u8>, literal: &Literal) -> Result<(), OutOfMemory> {
    if literal.positive {
        return show_atom(out, &literal.atom);
    }
    show(out, b"(not ")?;
    show_atom(out, &literal.atom)?;
    show(out, b")")
}

/// Adds the lines of literals.
fn show_literals(out: &mut Vec<u8>, kind: &[u8], list: &[Literal]) -> Result<(), OutOfMemory> {
    for literal in list {
        show_kind(out, false, kind)?;
        show_literal(out, literal)?;
        show(out, b"\n")?;
    }
    Ok(())
}

/// Adds the line of an increase.
fn show_increase(out: &mut Vec<u8>, increase: &Increase) -> Result<(), OutOfMemory> {
    show(out, b"    increase ")?;
    match increase {
        Increase::Number(cost) => show_number(out, *cost)?,
        Increase::Function(atom) => show_atom(out, atom)?,
    }
    show(out, b"\n")
}

/// Adds the lines of an action.
fn show_schema(out: &mut Vec<u8>, schema: &Schema) -> Result<(), OutOfMemory> {
    show_line(out, b"action", &schema.word)?;
    show_all_typed(out, b"  parameter", schema.params.as_slice())?;
    show_literals(out, b"  precondition", schema.pre.as_slice())?;
    show_atoms(out, b"  add", schema.add.as_slice())?;
    show_atoms(out, b"  delete", schema.del.as_slice())?;
    for increase in schema.increases.as_slice() {
        show_increase(out, increase)?;
    }
    Ok(())
}

/// Adds the lines of a domain.
pub(crate) fn show_domain(out: &mut Vec<u8>, domain: &Domain) -> Result<(), OutOfMemory> {
    show_line(out, b"domain", &domain.word)?;
    show_all_typed(out, b"type", domain.types.as_slice())?;
    show_all_typed(out, b"constant", domain.constants.as_slice())?;
    show_signatures(out, b"predicate", domain.predicates.as_slice())?;
    show_signatures(out, b"function", domain.functions.as_slice())?;
    for schema in domain.schemas.as_slice() {
        show_schema(out, schema)?;
    }
    Ok(())
}

/// Adds the line of the value of a function.
fn show_value(out: &mut Vec<u8>, value: &Value) -> Result<(), OutOfMemory> {
    show(out, b"  value ")?;
    show_atom(out, &value.of)?;
    show(out, b" ")?;
    show_number(out, value.cost)?;
    show(out, b"\n")
}

/// Adds the lines of a problem.
pub(crate) fn show_problem(out: &mut Vec<u8>, problem: &Problem) -> Result<(), OutOfMemory> {
    show_line(out, b"problem", &problem.word)?;
    show_line(out, b"domain", &problem.domain)?;
    show_all_typed(out, b"object", problem.objects.as_slice())?;
    show_atoms(out, b"init", problem.init.as_slice())?;
    for value in problem.values.as_slice() {
        show_value(out, value)?;
    }
    show_literals(out, b"goal", problem.goals.as_slice())?;
    show(
        out,
        if problem.metric {
            b"  minimize (total-cost)\n"
        } else {
            b""
        },
    )
}
