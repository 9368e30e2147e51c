//! States on their way into a search.

ghost use Rattle.std.specs.Prelude.{◌≡◌};
ghost use Rattle.mp_task.specs.declared.act.Act.{Act};
ghost use Rattle.mp_search.specs.AgentState.{successor};
ghost use Rattle.mp_search.specs.StateKeys.{reached_state, HasSizes};
ghost use Rattle.mp_task.specs.Limits.{ActFits};

use mp_sets::Bits;
use mp_store::Key;
use mp_task::Act;

/// A state, with its own private set itself.
#[derive(Drop)]
pub(crate) struct Reached {
    /// The public facts and the tags. The index of the own set is written in only when the state is looked up.
    pub(crate) key: Key,
    /// The own private facts that are true.
    pub(crate) mine: Bits,
}

impl Reached {
    /// Becomes the state that an action leads to from another one with the same tags. Takes no memory.
    pub(crate) fn follow(&mut self, from: &Reached, act: &Act)
        requires publics { self.old.key.publics.size ≡ from.now.key.publics.size }
        requires privates { self.old.mine.size ≡ from.now.mine.size }
        requires tags { self.old.key.tags ≡ from.now.key.tags }
        requires fits { ActFits from.now.key.publics.size from.now.mine.size act.now }
        ensures state { reached_state self.new ≡ successor act.now (reached_state from.now) }
        ensures publics { self.new.key.publics.size ≡ from.now.key.publics.size }
        ensures privates { self.new.mine.size ≡ from.now.mine.size }
    {
        self.key.publics.copy_from(&from.key.publics);
        self.key.publics.apply(&act.del_pub, &act.add_pub);
        self.mine.copy_from(&from.mine);
        self.mine.apply(&act.del_priv, &act.add_priv);
    }
}
