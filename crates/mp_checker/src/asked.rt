//! Literals where objects stand for the parameters: whether they hold, and the numbers of their facts.

ghost use Rattle.std.specs.Prelude.{◌≡◌, ◌++◌, ◌∷◌, [], not, None, List as ListOf, IfOk, OnOk, if◌then◌else◌};
ghost use Rattle.std.specs.List.{position_from};
ghost use Rattle.mp_checker.specs.declared.numbered.NumberedLiteral.{NumberedLiteral as Literal};
ghost use Rattle.mp_checker.specs.At.{holds_at as holds_of};
ghost use Rattle.mp_checker.specs.Marked.{HaveStayed, true_facts};
ghost use Rattle.mp_checker.specs.Places.{AreAsked, HasGrown};

use crate::facts::Facts;
use crate::marks::is_marked;
use crate::numbered::{NumberedLiteral, ObjectNumber};
use crate::places::atom_place;
use crate::room::StepPlaces;
use mp_list::OutOfMemory;
use mp_sets::Agent;
use std::alloc::Global;

/// Whether a literal holds, by whether its fact is true.
fn agrees(positive: bool, is_true: bool) -> bool
    ensures { result ≡ (if positive then is_true else not is_true) }
{
    if positive { is_true } else { !is_true }
}

/// Puts a number to those that are asked for, or else to those that are asked against.
fn note(positive: bool, number: u32, places: &mut StepPlaces) -> Result<(), OutOfMemory>
    ensures needs { OnOk result (places.new.needs.items
        ≡ (if positive then places.old.needs.items ++ number ∷ [] else places.old.needs.items)) }
    ensures against { OnOk result (places.new.against.items
        ≡ (if positive then places.old.against.items else places.old.against.items ++ number ∷ [])) }
{
    if positive {
        places.needs.push(number)?;
    } else {
        places.against.push(number)?;
    }
    Ok(())
}

/// Whether a literal holds. The number of its fact is noted.
fn holds_at(
    alloc: Global,
    facts: &mut Facts,
    room: &mut Vec<u32>,
    agent: Agent,
    args: &[ObjectNumber],
    literal: &NumberedLiteral,
    places: &mut StepPlaces,
) -> Result<bool, OutOfMemory>
    ensures grows { OnOk result (HasGrown facts.old.known.keys facts.new.known.keys) }
    ensures stays { OnOk result (HaveStayed facts.old facts.new) }
    ensures holds { IfOk result (λ answer. answer
        ≡ holds_of (true_facts facts.old) agent args.now literal.now) }
    ensures noted { (before : ListOf Literal)
        → AreAsked facts.old.known.keys agent args.now before places.old.needs.items places.old.against.items
        → OnOk result (AreAsked facts.new.known.keys agent args.now (before ++ literal.now ∷ [])
        places.new.needs.items places.new.against.items) }
{
    let number = atom_place(alloc, facts, room, agent, args, &literal.atom)?;
    note(literal.positive, number, places)?;
    let is_true = is_marked(facts.marks.as_slice(), number);
    Ok(agrees(literal.positive, is_true))
}

/// The place of the first literal that does not hold: none where all hold, and then the numbers of their facts are noted, in
/// place of those that were noted before. Refuses only for want of memory.
pub fn first_failing(
    alloc: Global,
    facts: &mut Facts,
    room: &mut Vec<u32>,
    agent: Agent,
    args: &[ObjectNumber],
    literals: &[NumberedLiteral],
    places: &mut StepPlaces,
) -> Result<Option<usize>, OutOfMemory>
    ensures grows { OnOk result (HasGrown facts.old.known.keys facts.new.known.keys) }
    ensures stays { OnOk result (HaveStayed facts.old facts.new) }
    ensures place { IfOk result (λ place. place
        ≡ position_from (λ l. not (holds_of (true_facts facts.old) agent args.now l)) 0 literals.now) }
    ensures noted { IfOk result (λ place. place ≡ None → AreAsked facts.new.known.keys agent args.now literals.now
        places.new.needs.items places.new.against.items) }
{
    places.needs.clear();
    places.against.clear();
    for (place, literal) in literals.iter().enumerate() {
        if !holds_at(alloc, facts, room, agent, args, literal, places)? {
            return Ok(Some(place));
        }
    }
    Ok(None)
}
