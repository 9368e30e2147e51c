//! States of entries as keys of a set.

ghost use Rattle.std.specs.Prelude.{◌≡◌, ◌∷◌, not, List, IfOk};
ghost use Rattle.mp_store.specs.declared.entry.Entry.{Entry};
ghost use Rattle.mp_search.specs.AgentState.{AgentState};
ghost use Rattle.mp_search.specs.StateKeys.{IsShown};
ghost use Rattle.mp_certify.specs.Keys.{AreKeysOf};
ghost use Rattle.mp_certify.specs.Latest.{has_state};

use mp_list::OutOfMemory;
use mp_search::Shown;
use mp_sets::{BitsView, Tags};
use std::collections::HashSet;

/// The state of an entry, by what is lent of it.
#[derive(Drop, PartialEq, Eq, Hash)]
pub(crate) struct StateKey<'a> {
    /// The public facts that are true.
    publics: BitsView<'a>,
    /// The own private facts that are true.
    mine: BitsView<'a>,
    /// A tag for each agent.
    tags: &'a Tags,
}

/// Notes that the state of an entry was met: whether it is new. Refuses only for want of memory.
pub(crate) fn is_new<'a>(
    met: &mut HashSet<StateKey<'a>>,
    shown: &Shown<'a>,
) -> Result<bool, OutOfMemory>
    ensures { IfOk result (λ fresh. (e : Entry AgentState) (later : List (Entry AgentState))
        → IsShown shown.now e
        → AreKeysOf shown.now.publics.size shown.now.mine.size later met.old.keys
        → (fresh ≡ not (has_state later e))
        × AreKeysOf shown.now.publics.size shown.now.mine.size (e ∷ later) met.new.keys) }
{
    let key = StateKey {
        publics: shown.publics.reborrow(),
        mine: shown.mine.reborrow(),
        tags: shown.tags,
    };
    let fresh = met.insert(key)?;
    Ok(fresh)
}
