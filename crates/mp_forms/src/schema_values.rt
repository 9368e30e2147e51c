//! Actions.

use crate::atom_values::AtomList;
use crate::effect_values::IncreaseList;
use crate::literal::LiteralList;
use crate::typed_values::TypedList;
use crate::word::Word;
use mp_list::List;

/// An action with variables for its parameters.
pub struct Schema {
    pub word: Word,
    /// The parameters, of which the agent is the first where there is one.
    pub params: TypedList,
    /// The literals that must hold.
    pub pre: LiteralList,
    /// The atoms that it makes true.
    pub add: AtomList,
    /// The atoms that it makes false.
    pub del: AtomList,
    /// By how much it increases the total cost.
    pub increases: IncreaseList,
}

impl Drop for Schema {
    fn drop(self) {
        let Schema {
            word: _,
            params: _,
            pre: _,
            add: _,
            del: _,
            increases: _,
        } = self;
    }
}

/// Actions in the order of the file.
pub type SchemaList = List<Schema>;
