//! The concurrent steps of a plan as a picture.

use crate::picture::picture_of;
use mp_joint::JointPlan;
use mp_list::OutOfMemory;
use mp_messages::Bytes;
use mp_steps::Packed;
use std::alloc::Global;

/// A plan of a team of so many agents as a picture, a text of SVG 1.1: a lane for each agent, a column for each of the
/// plan's concurrent steps, and a box for each action, in which its name and its arguments stand. The boxes of the chain are
/// thick, and a line runs through them. A name or arguments of more than forty characters are cut, and stand whole in the
/// hint of the box. Refuses only for want of memory.
pub fn steps_svg(
    alloc: Global,
    plan: &JointPlan,
    packed: &Packed,
    agents: u16,
) -> Result<Bytes, OutOfMemory> {
    picture_of(
        alloc,
        plan.as_slice(),
        packed.cost,
        packed.steps.as_slice(),
        packed.chain.as_slice(),
        agents,
    )
}
