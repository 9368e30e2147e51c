//! What agents show each other of their factors before grounding.

use mp_list::List;
use mp_sexp::{Name, NameList};

/// Facts as they are spelled: `(p a b)`, and `(not (p a b))` for a complement.
pub type FactTexts = List<Name>;

/// What an agent shows of its factor before grounding, or what several have shown together.
#[derive(Drop)]
pub struct OpenView {
    /// The public predicates that stand in an effect of an action.
    pub changed: NameList,
    /// The public predicates that stand under `not` in a precondition or goal.
    pub negated: NameList,
    /// The public facts that are true at the start.
    pub init: FactTexts,
}
