//! Certificates that no plan is cheaper than a cost.

use mp_list::List;
use mp_sets::{Agent, FactList};

/// Lists of private facts, for each agent of a team in their order.
pub type FactLists = List<FactList>;

/// What an agent has to pay at least from a joint state on.
pub struct Bound {
    /// The agent in whose search the state stands.
    pub agent: Agent,
    /// What is to be paid from there on at least, until all goals are true.
    pub bound: u64,
    /// The public facts that are true.
    pub publics: FactList,
    /// For each agent the private facts that are true.
    pub privates: FactLists,
}

impl Drop for Bound {
    fn drop(self) {
        let Bound {
            agent: _,
            bound: _,
            publics: _,
            privates: _,
        } = self;
    }
}

/// Entries of a certificate in their order.
pub type BoundList = List<Bound>;

/// A cost, and the bounds that are to show that no plan costs less. It says nothing by itself: an audit tells whether it
/// shows that.
#[derive(Drop)]
pub struct Certificate {
    /// What each plan is to cost at least.
    pub cost: u64,
    /// What is to be paid at least, by agents and joint states. From a state that is not named it may be nothing.
    pub bounds: BoundList,
}
