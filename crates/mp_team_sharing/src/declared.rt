//! The predicates and objects that the factors of a team declare.

use mp_forms::{File, Signature, Typed, Word};
use mp_list::OutOfMemory;
use mp_typing::CheckedFactor;
use std::alloc::Global;

/// What a name is of.
#[derive(Clone, Copy, PartialEq, Eq)]
pub enum Kind {
    Predicate,
    Object,
}

impl Kind {
    /// Its name.
    pub fn name(self) -> &'static str {
        match self {
            Kind::Predicate => "predicate",
            Kind::Object => "object",
        }
    }
}

/// A predicate or object as a factor of the team declares it.
#[derive(Clone, Copy)]
pub struct Declared<'a> {
    /// The place of the factor in the team, from 0.
    pub agent: usize,
    pub file: File,
    pub word: &'a Word,
    /// The arguments of a predicate.
    pub params: &'a [Typed],
    pub private: bool,
}

/// Adds predicates.
fn add_predicates<'a>(
    all: &mut Vec<Declared<'a>>,
    agent: usize,
    signatures: &'a [Signature],
) -> Result<(), OutOfMemory> {
    for signature in signatures {
        all.push(Declared {
            agent,
            file: File::Domain,
            word: &signature.word,
            params: signature.params.as_slice(),
            private: signature.private,
        })?;
    }
    Ok(())
}

/// Adds objects of a file.
fn add_objects<'a>(
    all: &mut Vec<Declared<'a>>,
    agent: usize,
    file: File,
    objects: &'a [Typed],
) -> Result<(), OutOfMemory> {
    for object in objects {
        all.push(Declared {
            agent,
            file,
            word: &object.word,
            params: &[],
            private: object.private,
        })?;
    }
    Ok(())
}

/// Adds what a factor declares of a kind.
fn add_factor<'a>(
    all: &mut Vec<Declared<'a>>,
    agent: usize,
    kind: Kind,
    checked: &'a CheckedFactor,
) -> Result<(), OutOfMemory> {
    let factor = checked.factor();
    match kind {
        Kind::Predicate => add_predicates(all, agent, factor.domain.predicates.as_slice()),
        Kind::Object => {
            add_objects(all, agent, File::Domain, factor.domain.constants.as_slice())?;
            add_objects(all, agent, File::Problem, factor.problem.objects.as_slice())
        }
    }
}

/// What the factors of a team declare of a kind, factor by factor, in the order of the files.
pub fn declared_by<'a>(
    alloc: Global,
    kind: Kind,
    team: &'a [CheckedFactor],
) -> Result<Vec<Declared<'a>>, OutOfMemory> {
    let mut all = Vec::new(alloc);
    for (agent, checked) in team.iter().enumerate() {
        add_factor(&mut all, agent, kind, checked)?;
    }
    Ok(all)
}
