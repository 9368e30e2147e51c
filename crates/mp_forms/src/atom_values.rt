//! Terms and atoms.

ghost use Rattle.std.specs.Prelude.{◌≡◌};
ghost use Rattle.mp_forms.specs.Limits.{name_of_term};

use crate::word::Word;
use mp_list::List;
use mp_sexp::Name;

/// What an atom is about.
#[derive(Drop)]
pub enum Term {
    /// A variable, its `?` included.
    Variable(Word),
    /// The name of an object or constant.
    Object(Word),
}

impl Term {
    /// The name of a variable, its `?` included, or of an object.
    pub fn name(&self) -> &Name
        ensures { result.now ≡ name_of_term self.now }
    {
        match self {
            Term::Variable(word) => &word.name,
            Term::Object(word) => &word.name,
        }
    }
}

/// Terms in the order of the file.
pub type TermList = List<Term>;

/// A predicate or function applied to terms.
pub struct Atom {
    pub word: Word,
    pub terms: TermList,
}

impl Drop for Atom {
    fn drop(self) {
        let Atom { word: _, terms: _ } = self;
    }
}

/// Atoms in the order of the file.
pub type AtomList = List<Atom>;
