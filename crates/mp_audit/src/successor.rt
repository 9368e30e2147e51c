//! Joint states after actions, and what holds in joint states.

ghost use Rattle.std.specs.Prelude.{◌≡◌, ◌&&◌, ◌-◌, option_map, slice_get, slice_set, Some};
ghost use Rattle.mp_sets.specs.Numbers.{holds};
ghost use Rattle.mp_task.specs.Limits.{ActFits};
ghost use Rattle.mp_task.specs.Met.{is_met};
ghost use Rattle.mp_task.specs.Plan.{after_act, goals_hold, private_of};
ghost use Rattle.mp_task.specs.Public.{is_public};
ghost use Rattle.mp_audit.specs.Failures.{is_visible};
ghost use Rattle.mp_audit.specs.States.{joint_of, mine_after, publics_after, HasSizesOf, HasSizesOfEach, IsBeside};

use crate::state::JointSets;
use mp_sets::Bits;
use mp_task::{Act, Task};

/// The place of a task's agent.
fn place_of(task: &Task) -> usize
    ensures { result ≡ task.now.me - 1 }
{
    task.me.number() as usize - 1
}

/// The private facts of a task's agent.
pub(crate) fn own<'a>(task: &Task, state: &'a JointSets) -> &'a Bits
    requires { HasSizesOf task.now state.now }
    ensures members { result.now.members ≡ private_of (joint_of state.now) task.now.me }
    ensures size { result.now.size ≡ task.now.privates }
{
    let place = place_of(task);
    let sets = state.privates.as_slice();
    &sets[place]
}

/// Whether all private goals of a task's agent hold.
pub(crate) fn is_met(task: &Task, state: &JointSets) -> bool
    requires { HasSizesOf task.now state.now }
    ensures { result ≡ is_met task.now (private_of (joint_of state.now) task.now.me) }
{
    own(task, state).holds(&task.goal_priv)
}

/// Whether the public goals and the private ones of a task's agent hold.
fn meets_goals(task: &Task, state: &JointSets) -> bool
    requires { HasSizesOf task.now state.now }
    ensures { result ≡ holds state.now.publics.members task.now.goal_pub
        && is_met task.now (private_of (joint_of state.now) task.now.me) }
{
    state.publics.holds(&task.goal_pub) && is_met(task, state)
}

/// Whether all goals of a team hold.
pub(crate) fn has_goals(tasks: &[Task], state: &JointSets) -> bool
    requires { HasSizesOfEach tasks.now state.now }
    ensures { result ≡ goals_hold tasks.now (joint_of state.now) }
{
    for task in tasks {
        if !meets_goals(task, state) {
            return false;
        }
    }
    true
}

/// Makes a set the private facts of a task's agent after an own action.
fn change(task: &Task, act: &Act, state: &JointSets, mine: &mut Bits)
    requires fits { ActFits task.now.publics task.now.privates act.now }
    requires sizes { HasSizesOf task.now state.now }
    requires size { mine.old.size ≡ task.now.privates }
    ensures { mine.new ≡ mine_after task.now state.now act.now }
{
    mine.copy_from(own(task, state));
    mine.apply(&act.del_priv, &act.add_priv);
}

/// Makes a set the public facts after an own action.
fn change_publics(task: &Task, act: &Act, state: &JointSets, publics: &mut Bits)
    requires fits { ActFits task.now.publics task.now.privates act.now }
    requires sizes { HasSizesOf task.now state.now }
    requires size { publics.old.size ≡ state.now.publics.size }
    ensures { publics.new ≡ publics_after state.now act.now }
{
    let _ = task;
    publics.copy_from(&state.publics);
    publics.apply(&act.del_pub, &act.add_pub);
}

/// Makes the set of a task's agent its private facts after an own action.
fn change_own(task: &Task, act: &Act, state: &JointSets, sets: &mut Vec<Bits>)
    requires fits { ActFits task.now.publics task.now.privates act.now }
    requires sizes { HasSizesOf task.now state.now }
    requires size { option_map (λ s. s.size) (slice_get sets.old.items (task.now.me - 1)) ≡ Some task.now.privates }
    ensures { sets.new.items
        ≡ slice_set sets.old.items (task.now.me - 1) (mine_after task.now state.now act.now) }
{
    let place = place_of(task);
    change(task, act, state, &mut sets[place]);
}

/// Makes a state that differs from another one in nothing else the state after it by an action of a task's agent.
pub(crate) fn reach(task: &Task, act: &Act, state: &JointSets, reached: &mut JointSets)
    requires fits { ActFits task.now.publics task.now.privates act.now }
    requires sizes { HasSizesOf task.now state.now }
    requires beside { IsBeside task.now state.now reached.old }
    ensures joint { joint_of reached.new ≡ after_act (joint_of state.now) task.now.me act.now }
    ensures beside { IsBeside task.now state.now reached.new }
{
    change_publics(task, act, state, &mut reached.publics);
    change_own(task, act, state, &mut reached.privates);
}

/// Whether an action of a number is public.
fn is_public(task: &Task, action: u32, act: &Act) -> bool
    requires { slice_get task.now.acts action ≡ Some act.now }
    ensures { result ≡ is_public act.now }
{
    let _ = act;
    task.is_public(action)
}

/// Whether others may see what an own action led to.
pub(crate) fn is_visible(
    task: &Task,
    action: u32,
    act: &Act,
    before: &JointSets,
    after: &JointSets,
) -> bool
    requires act { slice_get task.now.acts action ≡ Some act.now }
    requires before { HasSizesOf task.now before.now }
    requires after { HasSizesOf task.now after.now }
    ensures { result ≡ is_visible task.now act.now (joint_of before.now) (joint_of after.now) }
{
    is_public(task, action, act) || (!is_met(task, before) && is_met(task, after))
}
