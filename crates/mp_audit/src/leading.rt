//! Where an action leads on from an entry too cheaply.

ghost use Rattle.std.specs.Prelude.{◌≡◌, ◌≤◌, true, slice_get, Contains, Some};
ghost use Rattle.std.specs.List.{flat_map};
ghost use Rattle.mp_applicable.specs.Far.{IsFarIndexOf};
ghost use Rattle.mp_task.specs.Limits.{ActFits};
ghost use Rattle.mp_task.specs.Plan.{applies, private_of};
ghost use Rattle.mp_audit.specs.Audited.{state_of};
ghost use Rattle.mp_audit.specs.Failures.{cheap_in, cheap_in_other, cheap_leads, cheap_steps, concerns};
ghost use Rattle.mp_audit.specs.States.{joint_of, HasSizes, HasSizesOf, IsBeside};
ghost use Rattle.mp_audit.specs.Tables.{IsReady};

use crate::flat_bounds::FlatBound;
use crate::lookup::{AuditData, bound_in};
use crate::state::JointSets;
use crate::successor::{is_met, is_visible, reach};
use crate::verdict::AuditVerdict;
use mp_applicable::FarIndex;
use mp_sets::Agent;
use mp_task::{Act, Task};

/// An action leads on too cheaply in the search of an agent.
fn cheap_in(
    known: &AuditData<'_>,
    entry: u64,
    bound: &FlatBound<'_>,
    action: u32,
    act: &Act,
    reached: &JointSets,
    agent: Agent,
) -> Option<AuditVerdict>
    requires ready { IsReady known.now }
    requires sizes { HasSizes known.now.tasks.now reached.now }
    requires cost { act.now.cost ≤ 16000000 }
    ensures { result
        ≡ slice_get (cheap_in known.now.bounds.now.entries entry bound.now action act.now (joint_of reached.now) agent) 0 }
{
    if bound_in(known, agent, reached) + act.cost < bound.bound() {
        Some(AuditVerdict::Step {
            entry,
            action,
            agent,
        })
    } else {
        None
    }
}

/// An action leads on too cheaply in the search of a task's agent.
fn cheap_in_task(
    known: &AuditData<'_>,
    entry: u64,
    bound: &FlatBound<'_>,
    action: u32,
    act: &Act,
    reached: &JointSets,
    task: &Task,
) -> Option<AuditVerdict>
    requires ready { IsReady known.now }
    requires sizes { HasSizes known.now.tasks.now reached.now }
    requires cost { act.now.cost ≤ 16000000 }
    ensures { result ≡ slice_get
        (cheap_in known.now.bounds.now.entries entry bound.now action act.now (joint_of reached.now) task.now.me) 0 }
{
    cheap_in(known, entry, bound, action, act, reached, task.me)
}

/// Whether an agent knows that a joint state concerns another one.
fn concerns(task: &Task, far: &FarIndex, other: &Task, reached: &JointSets) -> bool
    requires index { IsFarIndexOf task.now far.now }
    requires team { other.now.me ≤ task.now.agents }
    requires sizes { HasSizesOf task.now reached.now }
    requires other { HasSizesOf other.now reached.now }
    ensures { result ≡ concerns task.now other.now (joint_of reached.now) }
{
    other.me != task.me
        && (far.may_act(task, other.me, &reached.publics) || !is_met(other, reached))
}

/// An action leads on too cheaply in the search of another agent.
fn cheap_in_other(
    known: &AuditData<'_>,
    task: &Task,
    far: &FarIndex,
    entry: u64,
    bound: &FlatBound<'_>,
    action: u32,
    act: &Act,
    reached: &JointSets,
    other: &Task,
) -> Option<AuditVerdict>
    requires ready { IsReady known.now }
    requires index { IsFarIndexOf task.now far.now }
    requires team { Contains known.now.tasks.now task.now }
    requires other { Contains known.now.tasks.now other.now }
    requires sizes { HasSizes known.now.tasks.now reached.now }
    requires cost { act.now.cost ≤ 16000000 }
    ensures { result ≡ slice_get
        (cheap_in_other known.now.bounds.now.entries entry bound.now task.now action act.now (joint_of reached.now) other.now) 0 }
{
    if concerns(task, far, other, reached) {
        cheap_in_task(known, entry, bound, action, act, reached, other)
    } else {
        None
    }
}

/// An action leads on too cheaply in the search of some other agent.
fn cheap_in_others(
    known: &AuditData<'_>,
    task: &Task,
    far: &FarIndex,
    entry: u64,
    bound: &FlatBound<'_>,
    action: u32,
    act: &Act,
    reached: &JointSets,
) -> Option<AuditVerdict>
    requires ready { IsReady known.now }
    requires index { IsFarIndexOf task.now far.now }
    requires team { Contains known.now.tasks.now task.now }
    requires sizes { HasSizes known.now.tasks.now reached.now }
    requires cost { act.now.cost ≤ 16000000 }
    ensures { result ≡ slice_get (flat_map
        (cheap_in_other known.now.bounds.now.entries entry bound.now task.now action act.now (joint_of reached.now))
        known.now.tasks.now) 0 }
{
    let tasks = known.tasks;
    for other in tasks {
        if let Some(failure) = cheap_in_other(
            known, task, far, entry, bound, action, act, reached, other,
        ) {
            return Some(failure);
        }
    }
    None
}

/// The first search in which an action leads on too cheaply to a joint state.
fn cheap_lead(
    known: &AuditData<'_>,
    task: &Task,
    far: &FarIndex,
    entry: u64,
    bound: &FlatBound<'_>,
    state: &JointSets,
    action: u32,
    act: &Act,
    reached: &JointSets,
) -> Option<AuditVerdict>
    requires ready { IsReady known.now }
    requires index { IsFarIndexOf task.now far.now }
    requires team { Contains known.now.tasks.now task.now }
    requires act { slice_get task.now.acts action ≡ Some act.now }
    requires cost { act.now.cost ≤ 16000000 }
    requires state { joint_of state.now ≡ state_of bound.now }
    requires sizes { HasSizes known.now.tasks.now state.now }
    requires reached { HasSizes known.now.tasks.now reached.now }
    ensures { result ≡ slice_get (cheap_leads known.now.tasks.now known.now.bounds.now.entries entry bound.now
        task.now action act.now (joint_of reached.now)) 0 }
{
    if let Some(failure) = cheap_in_task(known, entry, bound, action, act, reached, task) {
        return Some(failure);
    }
    if !is_visible(task, action, act, state, reached) {
        return None;
    }
    cheap_in_others(known, task, far, entry, bound, action, act, reached)
}

/// An action of a task keeps to the limits of the task.
fn keeps_limits(task: &Task, action: u32, act: &Act)
    requires { slice_get task.now.acts action ≡ Some act.now }
    ensures { ActFits task.now.publics task.now.privates act.now }
{
    let _ = task.acts.len();
    let _ = act;
    let _ = action;
}

/// The first search in which an action that applies leads on too cheaply. The last state is made the one after it.
pub(crate) fn cheap_step(
    known: &AuditData<'_>,
    task: &Task,
    far: &FarIndex,
    entry: u64,
    bound: &FlatBound<'_>,
    state: &JointSets,
    action: u32,
    act: &Act,
    reached: &mut JointSets,
) -> Option<AuditVerdict>
    requires ready { IsReady known.now }
    requires index { IsFarIndexOf task.now far.now }
    requires team { Contains known.now.tasks.now task.now }
    requires act { slice_get task.now.acts action ≡ Some act.now }
    requires state { joint_of state.now ≡ state_of bound.now }
    requires sizes { HasSizes known.now.tasks.now state.now }
    requires applies { applies act.now state.now.publics.members
        (private_of (joint_of state.now) task.now.me) ≡ true }
    requires beside { IsBeside task.now state.now reached.old }
    ensures first { result ≡ slice_get
        (cheap_steps known.now.tasks.now known.now.bounds.now.entries entry bound.now task.now action act.now) 0 }
    ensures beside { IsBeside task.now state.now reached.new }
{
    keeps_limits(task, action, act);
    reach(task, act, state, reached);
    cheap_lead(known, task, far, entry, bound, state, action, act, reached)
}
