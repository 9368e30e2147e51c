//! Actions of a task by the numbers of their facts.

use mp_list::{Copied, List, OutOfMemory};
use mp_sets::{Agent, FactList};

/// An own action: a ground action of STRIPS whose facts are public or private to the agent.
pub struct Act {
    /// The public preconditions; the action may be applied where these and the private ones are true.
    pub pre_pub: FactList,
    /// The private preconditions.
    pub pre_priv: FactList,
    /// The public facts that it makes true.
    pub add_pub: FactList,
    /// The private facts that it makes true.
    pub add_priv: FactList,
    /// The public facts that it makes false, if it doesn't make them true too.
    pub del_pub: FactList,
    /// The private facts that it makes false, if it doesn't make them true too.
    pub del_priv: FactList,
    /// What it costs.
    pub cost: u64,
}

impl Drop for Act {
    fn drop(self) {
        let Act {
            pre_pub: _,
            pre_priv: _,
            add_pub: _,
            add_priv: _,
            del_pub: _,
            del_priv: _,
            cost: _,
        } = self;
    }
}

/// Own actions by their numbers.
pub type ActList = List<Act>;

/// What the team sees of another agent's public action: whose it is, its public facts and its cost.
pub struct Far {
    /// The agent whose action it is.
    pub by: Agent,
    /// The public preconditions.
    pub pre: FactList,
    /// The public facts that it makes true.
    pub add: FactList,
    /// The public facts that it makes false, without those that it makes true.
    pub del: FactList,
    /// What the action costs.
    pub cost: u64,
}

impl Drop for Far {
    fn drop(self) {
        let Far {
            by: _,
            pre: _,
            add: _,
            del: _,
            cost: _,
        } = self;
    }
}

/// Parts of other agents' actions.
pub type FarList = List<Far>;

impl Copied for Far {
    fn copy(&self) -> Result<Far, OutOfMemory> {
        Ok(Far {
            by: self.by,
            pre: self.pre.copy()?,
            add: self.add.copy()?,
            del: self.del.copy()?,
            cost: self.cost,
        })
    }
}
