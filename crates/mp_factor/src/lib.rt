//! The two files of a factor: what their trees say, or the first fault of their shape with its place.
#![tactic(auto)]

mod atom_values;
mod conjuncts;
mod counted;
mod effect_values;
mod fault;
mod files;
mod first_costs;
mod found;
mod function_key;
mod init_values;
mod keys;
mod laws;
mod literal;
mod numbers;
mod refusal;
mod schema_values;
mod sections;
mod shape;
mod signature_values;
mod trees;
mod typed_values;
mod word;
mod words;

pub use laws::first_fault_is_one;
pub use mp_forms::{
    Atom, AtomList, Domain, Factor, Fault, FaultKind, File, Increase, IncreaseList, Literal,
    LiteralList, Problem, Schema, SchemaList, Signature, SignatureList, Term, TermList, Typed,
    TypedList, Value, ValueList, Word, WordList,
};
pub use refusal::ShapeRefusal;
pub use shape::{domain, domain_fault, into_problem, problem, problem_fault};
