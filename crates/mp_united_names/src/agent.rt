//! An agent of a team, and the names of its own in the united problem.
//!
//! What belongs to an agent has an ending behind its name there: dashes, one more than stand in a row in any name of the
//! team, and the agent's number. So it differs from each public name and from what belongs to others.

use crate::number::push_number;
use crate::texts::TextSet;
use mp_forms::{Domain, Problem, Typed, Word};
use mp_list::OutOfMemory;
use mp_messages::Bytes;
use mp_sexp::Name;
use mp_typing::CheckedFactor;

/// An agent of a team, and what its names are in the united problem.
#[derive(Drop)]
pub struct UnitedAgent<'a> {
    pub checked: &'a CheckedFactor,
    /// Its number, from 1.
    pub(crate) number: u64,
    /// How many dashes are in an ending.
    pub(crate) dashes: usize,
    /// Its private predicates.
    pub(crate) predicates: TextSet<'a>,
    /// Its private objects.
    pub(crate) objects: TextSet<'a>,
    /// The public predicates that factors of the team declare with different numbers of arguments.
    pub(crate) several: TextSet<'a>,
}

impl<'a> UnitedAgent<'a> {
    /// What its domain file says.
    pub fn domain(&self) -> &Domain {
        &self.checked.factor().domain
    }

    /// What its problem file says.
    pub fn problem(&self) -> &Problem {
        &self.checked.factor().problem
    }

    /// Appends the dashes of an ending.
    fn push_dashes(&self, out: &mut Bytes) -> Result<(), OutOfMemory> {
        for _ in 0..self.dashes {
            out.push(b'-')?;
        }
        Ok(())
    }

    /// Appends its ending.
    fn push_ending(&self, out: &mut Bytes) -> Result<(), OutOfMemory> {
        self.push_dashes(out)?;
        push_number(out, self.number)
    }

    /// Appends the name of what belongs to it: of an action or a function.
    pub fn push_own(&self, out: &mut Bytes, name: &Name) -> Result<(), OutOfMemory> {
        out.extend_from_slice(name.as_slice())?;
        self.push_ending(out)
    }

    /// Appends the name of an object: a private one has its ending.
    pub fn push_object(&self, out: &mut Bytes, name: &Name) -> Result<(), OutOfMemory> {
        if self.objects.contains(name.as_slice()) {
            return self.push_own(out, name);
        }
        out.extend_from_slice(name.as_slice())
    }

    /// Appends the name of a public predicate that factors declare with different numbers of arguments: behind the dashes
    /// of an ending, and a 0 with which no agent's number begins, it has this number of arguments.
    fn push_counted(&self, out: &mut Bytes, name: &Name, count: usize) -> Result<(), OutOfMemory> {
        out.extend_from_slice(name.as_slice())?;
        self.push_dashes(out)?;
        out.push(b'0')?;
        push_number(out, count as u64)
    }

    /// Appends the name of a predicate with this number of arguments: a private one has its ending.
    pub fn push_predicate(
        &self,
        out: &mut Bytes,
        name: &Name,
        count: usize,
    ) -> Result<(), OutOfMemory> {
        if self.predicates.contains(name.as_slice()) {
            return self.push_own(out, name);
        }
        if self.several.contains(name.as_slice()) {
            return self.push_counted(out, name, count);
        }
        out.extend_from_slice(name.as_slice())
    }

    /// Appends some types, each behind the dashes of an ending.
    fn push_types(&self, out: &mut Bytes, types: &[Word]) -> Result<(), OutOfMemory> {
        for word in types {
            self.push_dashes(out)?;
            out.extend_from_slice(word.name.as_slice())?;
        }
        Ok(())
    }

    /// Appends the name of the predicate that is true of those of its objects that may stand for a parameter.
    pub fn push_type_test(&self, out: &mut Bytes, param: &Typed) -> Result<(), OutOfMemory> {
        out.extend_from_slice(b"is")?;
        if param.types.len() == 0 {
            self.push_dashes(out)?;
            out.extend_from_slice(b"object")?;
        }
        self.push_types(out, param.types.as_slice())?;
        self.push_ending(out)
    }

    /// Appends the name of the predicate that is true where a function of its has a value.
    pub fn push_value_test(&self, out: &mut Bytes, function: &Name) -> Result<(), OutOfMemory> {
        out.extend_from_slice(b"given")?;
        self.push_dashes(out)?;
        self.push_own(out, function)
    }
}
