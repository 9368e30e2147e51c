//! A factor: what an agent's two files say, form by form.

ghost use Rattle.mp_forms.specs.FromFile.{IsDomainOfFile, IsProblemOfFile};
ghost use Rattle.mp_forms.specs.Limits.{DomainFits, ProblemFits};
ghost use Rattle.mp_forms.specs.Uses.{DomainIsNamed, ProblemIsNamed};

use crate::atom_values::AtomList;
use crate::init_values::ValueList;
use crate::literal::LiteralList;
use crate::schema_values::SchemaList;
use crate::signature_values::SignatureList;
use crate::typed_values::TypedList;
use crate::word::Word;
use std::marker::Model;

/// A domain file of factored MA-PDDL: what some tree says that has no fault. So each of its actions has at most 12
/// parameters and 16 increases, and none of its costs is above 1,000,000.
pub struct Domain {
    /// Its name.
    pub word: Word,
    pub types: TypedList,
    pub constants: TypedList,
    pub predicates: SignatureList,
    pub functions: SignatureList,
    pub schemas: SchemaList,
}

impl Drop for Domain {
    fn drop(self) {
        let Domain {
            word: _,
            types: _,
            constants: _,
            predicates: _,
            functions: _,
            schemas: _,
        } = self;
    }
}

impl Model for Domain {
    ghost use Rattle.mp_forms.specs.FactorParts.{DomainParts};

    ghost Value = { DomainParts };

    ghost use Rattle.mp_forms.specs.FactorFields.{domain_fields};
    ghost use Rattle.mp_forms.specs.FromFile.{IsDomainOfFile};

    ghost view = { domain_fields };

    ghost invariant = { λ d. IsDomainOfFile (domain_fields d) };
}

impl Domain {
    /// A law of every domain: it is what some file without faults says, keeps the limits, and its names are names.
    pub fn comes_from_a_file(&self)
        ensures file { IsDomainOfFile self.now }
        ensures limits { DomainFits self.now }
        ensures names { DomainIsNamed self.now }
    {
        let _ = &self.word;
    }
}

/// A problem file of factored MA-PDDL: what some tree says that has no fault. So none of its values is above
/// 1,000,000, and no function has two of them.
pub struct Problem {
    /// Its name.
    pub word: Word,
    /// The name of the domain that it belongs to.
    pub domain: Word,
    pub objects: TypedList,
    /// The facts that are true at the start.
    pub init: AtomList,
    /// The values of functions.
    pub values: ValueList,
    /// The literals that are to hold in the end.
    pub goals: LiteralList,
    /// Whether the total cost is to be least; otherwise each action costs 1.
    pub metric: bool,
}

impl Drop for Problem {
    fn drop(self) {
        let Problem {
            word: _,
            domain: _,
            objects: _,
            init: _,
            values: _,
            goals: _,
            metric: _,
        } = self;
    }
}

impl Model for Problem {
    ghost use Rattle.mp_forms.specs.FactorParts.{ProblemParts};

    ghost Value = { ProblemParts };

    ghost use Rattle.mp_forms.specs.FactorFields.{problem_fields};
    ghost use Rattle.mp_forms.specs.FromFile.{IsProblemOfFile};

    ghost view = { problem_fields };

    ghost invariant = { λ p. IsProblemOfFile (problem_fields p) };
}

impl Problem {
    /// A law of every problem: it is what some file without faults says, keeps the limits, and its names are names.
    pub fn comes_from_a_file(&self)
        ensures file { IsProblemOfFile self.now }
        ensures limits { ProblemFits self.now }
        ensures names { ProblemIsNamed self.now }
    {
        let _ = &self.word;
    }
}

/// What one agent's two files say.
#[derive(Drop)]
pub struct Factor {
    pub domain: Domain,
    pub problem: Problem,
}
