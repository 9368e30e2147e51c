//! The grounded factor of one agent.

ghost use Rattle.std.specs.Prelude.{◌≡◌};

use mp_lifted::ActionBindingList;
use mp_lifting::FactTexts;
use mp_sets::{Agent, FactList};
use mp_task::ActList;

/// The factor of an agent, grounded. Private facts are numbered from 0: facts before complements, then by predicate in
/// the order of the file, then by arguments in object order. Public facts have the places of their texts as numbers,
/// which are the agent's own until the team's are known.
pub struct Ground {
    /// The agent.
    pub me: Agent,
    /// The public facts and complements that an action touches or a goal names, as they are spelled, in the order of
    /// their bytes.
    pub publics: FactTexts,
    /// How many private facts and complements an action touches or a goal names.
    pub privates: u32,
    /// The private ones that are true at the start.
    pub start: FactList,
    /// The public goals of the agent.
    pub goal_pub: FactList,
    /// The private goals of the agent.
    pub goal_priv: FactList,
    /// The own actions by their numbers: by action in the order of the file, then by arguments in object order. Static
    /// preconditions are left out.
    pub acts: ActList,
    /// For each own action, the action of the file and the objects that it stands for.
    pub steps: ActionBindingList,
}

impl Ground {
    /// For each own action, the action of the file and the objects that it stands for; the rest is let go.
    pub fn into_steps(self) -> ActionBindingList
        ensures { result ≡ self.steps }
    {
        let Ground {
            me: _,
            publics: _,
            privates: _,
            start: _,
            goal_pub: _,
            goal_priv: _,
            acts: _,
            steps,
        } = self;
        steps
    }
}

impl Drop for Ground {
    fn drop(self) {
        let Ground {
            me: _,
            publics: _,
            privates: _,
            start: _,
            goal_pub: _,
            goal_priv: _,
            acts: _,
            steps: _,
        } = self;
    }
}
