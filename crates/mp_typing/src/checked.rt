//! A factor that has passed the checks.

ghost use Rattle.std.specs.Bool.{Decides};
ghost use Rattle.std.specs.Prelude.{◌≡◌, [], IfOk};
ghost use Rattle.mp_typing.specs.CheckFaults.{check_faults};
ghost use Rattle.mp_typing.specs.Hierarchy.{IsHierarchy};
ghost use Rattle.mp_typing.specs.IsA.{IsA};
ghost use Rattle.mp_typing.specs.Members.{Members};
ghost use Rattle.mp_typing.specs.ObjectList.{object_list};

use crate::hierarchy::{Hierarchy, TypeList};
use crate::listed::ObjectList;
use mp_forms::{Domain, Factor, Problem, TypedList};
use mp_list::OutOfMemory;
use mp_sexp::Name;
use std::alloc::Global;
use std::marker::Model;

/// What one agent's two files say, where nothing is wrong with it. Contracts see it as the factor.
pub struct CheckedFactor {
    factor: Factor,
    /// The order of its types, and the types of its objects.
    hierarchy: Hierarchy,
    alloc: Global,
}

impl Drop for CheckedFactor {
    fn drop(self) {
        let CheckedFactor {
            factor: _,
            hierarchy: _,
            alloc: _,
        } = self;
    }
}

impl Model for CheckedFactor {
    ghost use Rattle.std.specs.Prelude.{◌≡◌, []};
    ghost use Rattle.mp_forms.specs.declared.factor.Factor.{Factor};
    ghost use Rattle.mp_typing.specs.CheckFaults.{check_faults};
    ghost use Rattle.mp_typing.specs.Hierarchy.{IsHierarchy};
    ghost use Rattle.mp_typing.specs.ObjectList.{object_list};

    ghost Value = { Factor };

    ghost view = { λ c. c.factor };

    ghost invariant = { λ c. (check_faults c.factor.domain c.factor.problem ≡ [])
        × IsHierarchy c.factor.domain.types (object_list c.factor.domain c.factor.problem) c.hierarchy };
}

/// The types that a factor declares.
fn types_of(factor: &Factor) -> &TypedList
    ensures { result.now ≡ factor.now.domain.types }
{
    &factor.domain.types
}

impl CheckedFactor {
    /// The factor of two files with which nothing is wrong, where this is the order of its types and objects.
    pub(crate) fn of(
        alloc: Global,
        domain: Domain,
        problem: Problem,
        hierarchy: Hierarchy,
    ) -> CheckedFactor
        requires no_fault { check_faults domain problem ≡ [] }
        requires hierarchy { IsHierarchy domain.types (object_list domain problem) hierarchy }
        ensures { result ≡ record { domain = domain; problem = problem } }
    {
        CheckedFactor {
            factor: Factor { domain, problem },
            hierarchy,
            alloc,
        }
    }

    /// The factor, with which nothing is wrong.
    pub fn factor(&self) -> &Factor
        ensures same { result.now ≡ self.now }
        ensures checked { check_faults self.now.domain self.now.problem ≡ [] }
    {
        &self.factor
    }

    /// Whether a type is another or lies under it: every type is an `object`. Refuses only for want of memory.
    ///
    /// The declarations were worked out by `check`. A call counts through them, and looks once at each type that is the
    /// asked one or lies under it.
    pub fn is_a(&self, sub: &Name, sup: &Name) -> Result<bool, OutOfMemory>
        ensures { IfOk result (λ answer. Decides answer (IsA self.now.domain.types sub.now sup.now)) }
    {
        self.hierarchy
            .is_a(self.alloc, types_of(&self.factor), sub, sup)
    }

    /// The numbers of the objects that are of one of the asked types, in rising order; `object` is meant where no type
    /// is asked. An object's number is its place in object order, counted from 0: constants first, then objects, each
    /// in file order, and one that is listed again counts once. Refuses only for want of memory.
    ///
    /// The declarations and the objects of each type were worked out by `check`. A call counts through the declarations,
    /// looks once at each type that is asked for or lies under an asked one, and merges the objects that are written with
    /// these types.
    pub fn members(&self, asked: &TypeList) -> Result<ObjectList, OutOfMemory>
        ensures { IfOk result (λ numbers. Members self.now.domain.types (object_list self.now.domain self.now.problem) asked.now numbers) }
    {
        self.hierarchy
            .members(self.alloc, types_of(&self.factor), asked)
    }
}
