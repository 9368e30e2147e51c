//! What the two files of a factor say, form by form, the rules by which a tree says it, and what follows from these.
#![tactic(auto)]

mod atom_values;
mod effect_values;
mod factor;
mod fault;
mod files;
mod init_values;
mod laws;
mod literal;
mod schema_values;
mod signature_values;
mod typed_values;
mod word;

pub use atom_values::{Atom, AtomList, Term, TermList};
pub use effect_values::{Change, Effect, Increase, IncreaseList};
pub use factor::{Domain, Factor, Problem};
pub use fault::{Fault, FaultKind};
pub use files::File;
pub use init_values::{Fact, Start, Value, ValueList};
pub use laws::{values_are_taken_from_the_file, words_are_names_or_variables};
pub use literal::{Literal, LiteralList};
pub use schema_values::{Schema, SchemaList};
pub use signature_values::{Signature, SignatureList};
pub use typed_values::{Typed, TypedList};
pub use word::{Word, WordList};
