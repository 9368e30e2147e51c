//! Steps and plans by their names.

use mp_list::{Copied, List, OutOfMemory};
use mp_sets::Agent;
use mp_sexp::{Name, NameList};

/// One action of one agent, with the objects that stand for its parameters.
#[derive(Drop)]
pub struct PlanStep {
    pub agent: Agent,
    pub action: Name,
    pub args: NameList,
}

/// A plan of the whole team: its steps, one after another.
pub type JointPlan = List<PlanStep>;

/// What an agent's own action numbers stand for, by number.
pub type Names = List<PlanStep>;

impl Copied for PlanStep {
    fn copy(&self) -> Result<PlanStep, OutOfMemory> {
        Ok(PlanStep {
            agent: self.agent,
            action: self.action.copy()?,
            args: self.args.copy()?,
        })
    }
}
