//! Names that are used: each is to be declared, and applied to as many terms as declared.

ghost use Rattle.std.specs.Prelude.{◌≡◌, IfOk, codes};
ghost use Rattle.std.specs.List.{flat_map, list_any};
ghost use Rattle.std.specs.Str.{bytes_eq};
ghost use Rattle.mp_typing.specs.Faults.{leftmost};
ghost use Rattle.mp_typing.specs.Lookups.{arity_of};
ghost use Rattle.mp_typing.specs.Uses.{is_declared, term_faults, applied_faults, called_faults, atom_faults, literal_faults, function_faults, increase_faults};

use crate::declared::Declared;
use crate::each::{Check, each_fault};
use crate::fault::{Fault, FaultKind, with};
use mp_forms::{Atom, File, Increase, Literal, Term, Typed, Value, Word};
use mp_list::OutOfMemory;
use mp_sexp::Name;

/// Where names are used: in a file, with the parameters that variables may be, under what is declared.
#[derive(Clone, Copy)]
pub struct Scope<'s, 'd> {
    pub file: File,
    pub params: &'s [Typed],
    pub declared: &'s Declared<'d>,
}

/// Whether one of these parameters has this name.
fn is_parameter(params: &[Typed], name: &Name) -> bool
    ensures { result ≡ list_any (λ p. bytes_eq p.word.name name.now) params.now }
{
    params
        .iter()
        .any(|param| param.word.name.as_slice() == name.as_slice())
}

/// Whether a variable is one of these parameters, or an object is declared.
#[tactic(auto, unfolding(crate::specs::Uses::is_declared))]
fn is_known(params: &[Typed], declared: &Declared, term: &Term) -> bool
    ensures { result ≡ is_declared params.now declared.now term.now }
{
    match term {
        Term::Variable(word) => is_parameter(params, &word.name),
        Term::Object(word) => declared.has_object(&word.name),
    }
}

#[tactic(auto, unfolding(crate::specs::Uses::term_faults))]
impl<'s, 'd> Check<Term> for Scope<'s, 'd> {
    ghost faults = { λ scope term. term_faults scope.file scope.params.now scope.declared.now term };

    fn fault(&self, least: Option<Fault>, term: &Term) -> Result<Option<Fault>, OutOfMemory> {
        if is_known(self.params, self.declared, term) {
            return Ok(least);
        }
        match term {
            Term::Variable(word) => with(least, FaultKind::Unknown, self.file, word),
            Term::Object(word) => with(least, FaultKind::Unknown, self.file, word),
        }
    }
}

/// The first fault, with that of a word that is applied to `count` terms and was declared with this number of them,
/// or not at all. Refuses only for want of memory.
#[tactic(auto, unfolding(crate::specs::Uses::applied_faults))]
fn applied_fault(
    least: Option<Fault>,
    file: File,
    word: &Word,
    count: usize,
    declared: Option<usize>,
) -> Result<Option<Fault>, OutOfMemory>
    ensures { IfOk result (λ first. first ≡ leftmost least (applied_faults file word.now count declared)) }
{
    match declared {
        None => with(least, FaultKind::Unknown, file, word),
        Some(number) => {
            if count == number {
                Ok(least)
            } else {
                with(least, FaultKind::Arity, file, word)
            }
        }
    }
}

/// The first fault, with those of an atom, whose predicate was declared with this number of parameters, or not at all.
/// Refuses only for want of memory.
#[tactic(auto, using(mp_list::proofs::FirstLemmas::leftmost_append), unfolding(crate::specs::Uses::atom_faults))]
fn numbered_fault(
    least: Option<Fault>,
    scope: &Scope<'_, '_>,
    number: Option<usize>,
    atom: &Atom,
) -> Result<Option<Fault>, OutOfMemory>
    requires { number ≡ arity_of scope.now.declared.now.domain.predicates atom.now.word.name }
    ensures { IfOk result (λ first. first ≡ leftmost least (atom_faults scope.now.file scope.now.params.now scope.now.declared.now atom.now)) }
{
    let applied = applied_fault(least, scope.file, &atom.word, atom.terms.len(), number)?;
    each_fault(applied, scope, atom.terms.as_slice())
}

impl<'s, 'd> Check<Atom> for Scope<'s, 'd> {
    ghost faults = { λ scope atom. atom_faults scope.file scope.params.now scope.declared.now atom };

    fn fault(&self, least: Option<Fault>, atom: &Atom) -> Result<Option<Fault>, OutOfMemory> {
        let number = self.declared.predicate(&atom.word.name);
        numbered_fault(least, self, number, atom)
    }
}

/// The first fault, with those of atoms. The predicate of the atom that is given first is looked up, and after it each
/// that differs from the one before. Refuses only for want of memory.
fn atoms_fault_from(
    least: Option<Fault>,
    scope: &Scope<'_, '_>,
    head: &Atom,
    atoms: &[Atom],
) -> Result<Option<Fault>, OutOfMemory>
    ensures { IfOk result (λ first. first
        ≡ leftmost least (flat_map (atom_faults scope.now.file scope.now.params.now scope.now.declared.now) atoms.now)) }
{
    let declared = scope.declared;
    let mut first = least;
    let mut name = &head.word.name;
    let mut number = declared.predicate(name);
    for atom in atoms {
        number = declared.predicate_beside(name, number, &atom.word.name);
        name = &atom.word.name;
        first = numbered_fault(first, scope, number, atom)?;
    }
    Ok(first)
}

/// The first fault, with those of atoms. Refuses only for want of memory.
pub fn atoms_fault(
    least: Option<Fault>,
    scope: &Scope<'_, '_>,
    atoms: &[Atom],
) -> Result<Option<Fault>, OutOfMemory>
    ensures { IfOk result (λ first. first
        ≡ leftmost least (flat_map (atom_faults scope.now.file scope.now.params.now scope.now.declared.now) atoms.now)) }
{
    match atoms {
        [] => Ok(least),
        [head, ..] => atoms_fault_from(least, scope, head, atoms),
    }
}

/// A literal's atom is checked, whatever its sign.
#[tactic(auto, unfolding(crate::specs::Uses::literal_faults))]
impl<'s, 'd> Check<Literal> for Scope<'s, 'd> {
    ghost faults = { λ scope literal. literal_faults scope.file scope.params.now scope.declared.now literal };

    fn fault(&self, least: Option<Fault>, literal: &Literal) -> Result<Option<Fault>, OutOfMemory> {
        self.fault(least, &literal.atom)
    }
}

/// Whether a name is that of the function that the plan's cost is.
fn is_total_cost(name: &Name) -> bool
    ensures { result ≡ bytes_eq name.now (codes "total-cost") }
{
    name.is(b"total-cost")
}

/// The first fault, with that of a function that is applied to `count` terms; `total-cost` needs no declaration.
/// Refuses only for want of memory.
#[tactic(auto, unfolding(crate::specs::Uses::called_faults))]
fn called_fault(
    least: Option<Fault>,
    file: File,
    word: &Word,
    count: usize,
    declared: Option<usize>,
) -> Result<Option<Fault>, OutOfMemory>
    ensures { IfOk result (λ first. first ≡ leftmost least (called_faults file word.now count declared)) }
{
    if is_total_cost(&word.name) && declared.is_none() {
        Ok(least)
    } else {
        applied_fault(least, file, word, count, declared)
    }
}

/// The first fault, with those of a function and its terms. Refuses only for want of memory.
#[tactic(auto, using(mp_list::proofs::FirstLemmas::leftmost_append), unfolding(crate::specs::Uses::function_faults))]
fn function_fault(
    least: Option<Fault>,
    scope: &Scope<'_, '_>,
    function: &Atom,
) -> Result<Option<Fault>, OutOfMemory>
    ensures { IfOk result (λ first. first
        ≡ leftmost least (function_faults scope.now.file scope.now.params.now scope.now.declared.now function.now)) }
{
    let number = scope.declared.function(&function.word.name);
    let count = function.terms.len();
    let called = called_fault(least, scope.file, &function.word, count, number)?;
    each_fault(called, scope, function.terms.as_slice())
}

#[tactic(auto, unfolding(crate::specs::Uses::increase_faults))]
impl<'s, 'd> Check<Increase> for Scope<'s, 'd> {
    ghost faults = { λ scope increase. increase_faults scope.file scope.params.now scope.declared.now increase };

    fn fault(
        &self,
        least: Option<Fault>,
        increase: &Increase,
    ) -> Result<Option<Fault>, OutOfMemory> {
        match increase {
            Increase::Number(_) => Ok(least),
            Increase::Function(function) => function_fault(least, self, function),
        }
    }
}

impl<'s, 'd> Check<Value> for Scope<'s, 'd> {
    ghost faults = { λ scope value. function_faults scope.file scope.params.now scope.declared.now value.of };

    fn fault(&self, least: Option<Fault>, value: &Value) -> Result<Option<Fault>, OutOfMemory> {
        function_fault(least, self, &value.of)
    }
}

/// The first fault, with those of literals. Refuses only for want of memory.
pub fn literals_fault(
    least: Option<Fault>,
    scope: &Scope<'_, '_>,
    literals: &[Literal],
) -> Result<Option<Fault>, OutOfMemory>
    ensures { IfOk result (λ first. first
        ≡ leftmost least (flat_map (literal_faults scope.now.file scope.now.params.now scope.now.declared.now) literals.now)) }
{
    each_fault(least, scope, literals)
}

/// The first fault, with those of increases. Refuses only for want of memory.
pub fn increases_fault(
    least: Option<Fault>,
    scope: &Scope<'_, '_>,
    increases: &[Increase],
) -> Result<Option<Fault>, OutOfMemory>
    ensures { IfOk result (λ first. first
        ≡ leftmost least (flat_map (increase_faults scope.now.file scope.now.params.now scope.now.declared.now) increases.now)) }
{
    each_fault(least, scope, increases)
}
