//! The verdict on a plan.

use mp_joint::NamedFact;

/// What is found of a plan. The time of a step is its place in the plan, counted from 1.
#[derive(Drop)]
pub enum CheckVerdict {
    /// It solves the united problem, at this cost.
    Valid(u64),
    /// The step of this time is no instance of its agent's factor: no such agent, no such action, objects that may
    /// not stand for the parameters, or a cost value that is missing.
    NoAction(u64),
    /// The step of this time asks for this fact, which is false then.
    Missing(u64, NamedFact),
    /// The step of this time asks that this fact is false, and it is true then.
    Forbidden(u64, NamedFact),
    /// A goal asks for this fact, which is false in the end.
    GoalMissing(NamedFact),
    /// A goal asks that this fact is false, and it is true in the end.
    GoalForbidden(NamedFact),
}
