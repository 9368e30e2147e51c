//! The first failure of an entry of a certificate.

ghost use Rattle.std.specs.Prelude.{◌≡◌, ◌<◌, ◌≤◌, ◌-◌, ◌+◌, ℕ, true, length, slice_get, Contains, IfOk, Some};
ghost use Rattle.std.specs.FinSet as set;
ghost use Rattle.std.specs.Option.{option_copied};
ghost use Rattle.mp_applicable.specs.Applicable.{is_applicable};
ghost use Rattle.mp_applicable.specs.Far.{IsFarIndexOf};
ghost use Rattle.mp_task.specs.declared.act.Act.{Act as ActParts};
ghost use Rattle.mp_task.specs.Plan.{private_of};
ghost use Rattle.mp_audit.specs.declared.certificate.Bound.{Bound as BoundParts};
ghost use Rattle.mp_audit.specs.Audited.{state_of};
ghost use Rattle.mp_audit.specs.Failures.{all_entry_failures, cheap_acts, cheap_steps, entry_failures};
ghost use Rattle.mp_audit.specs.States.{joint_of, HasNoFacts, HasSizes, HasSizesOf, IsBeside};
ghost use Rattle.mp_audit.specs.Tables.{AreActionSets, IsFinderOf, IsReady};

use crate::flat_bounds::FlatBound;
use crate::leading::cheap_step;
use crate::lookup::{AuditData, Finder};
use crate::state::{JointSets, copy_state, no_facts, set_to};
use crate::successor::{has_goals, own};
use crate::verdict::AuditVerdict;
use mp_applicable::FarIndex;
use mp_list::OutOfMemory;
use mp_sets::{Agent, Bits};
use mp_task::{Act, Task};
use std::alloc::Global;

/// Makes a set the numbers of the own actions that may be applied in a joint state.
fn find_actions(task: &Task, finder: &Finder, state: &JointSets, found: &mut Bits)
    requires finder { IsFinderOf task.now finder.now }
    requires sizes { HasSizesOf task.now state.now }
    requires size { found.old.size ≡ length task.now.acts }
    ensures size { found.new.size ≡ length task.now.acts }
    ensures numbers { (k : ℕ) → set.contains found.new.members k
        ≡ is_applicable task.now.acts state.now.publics.members (private_of (joint_of state.now) task.now.me) k }
{
    finder
        .actions
        .find(task, &state.publics, own(task, state), found);
}

/// The action of a number.
fn action_of(task: &Task, action: u32) -> &Act
    requires { action < length task.now.acts }
    ensures { slice_get task.now.acts action ≡ Some result.now }
{
    &task.acts.as_slice()[action as usize]
}

/// The first search in which the action of a number, which applies, leads on too cheaply. The last state is made the one
/// after it.
fn cheap_action(
    known: &AuditData<'_>,
    task: &Task,
    far: &FarIndex,
    entry: u64,
    bound: &FlatBound<'_>,
    state: &JointSets,
    action: u32,
    reached: &mut JointSets,
) -> Option<AuditVerdict>
    requires ready { IsReady known.now }
    requires index { IsFarIndexOf task.now far.now }
    requires team { Contains known.now.tasks.now task.now }
    requires inside { action < length task.now.acts }
    requires state { joint_of state.now ≡ state_of bound.now }
    requires sizes { HasSizes known.now.tasks.now state.now }
    requires found { is_applicable task.now.acts state.now.publics.members
        (private_of (joint_of state.now) task.now.me) action ≡ true }
    requires beside { IsBeside task.now state.now reached.old }
    ensures first { (act : ActParts) → slice_get task.now.acts action ≡ Some act → result ≡ slice_get
        (cheap_steps known.now.tasks.now known.now.bounds.now.entries entry bound.now task.now action act) 0 }
    ensures beside { IsBeside task.now state.now reached.new }
{
    let act = action_of(task, action);
    cheap_step(known, task, far, entry, bound, state, action, act, reached)
}

/// The first failure of those of the actions that may be applied in an entry.
fn cheap_actions(
    known: &AuditData<'_>,
    task: &Task,
    far: &FarIndex,
    entry: u64,
    bound: &FlatBound<'_>,
    state: &JointSets,
    found: &Bits,
    reached: &mut JointSets,
) -> Option<AuditVerdict>
    requires ready { IsReady known.now }
    requires index { IsFarIndexOf task.now far.now }
    requires team { Contains known.now.tasks.now task.now }
    requires state { joint_of state.now ≡ state_of bound.now }
    requires sizes { HasSizes known.now.tasks.now state.now }
    requires size { found.now.size ≡ length task.now.acts }
    requires numbers { (k : ℕ) → set.contains found.now.members k
        ≡ is_applicable task.now.acts state.now.publics.members (private_of (joint_of state.now) task.now.me) k }
    requires beside { IsBeside task.now state.now reached.old }
    ensures first { result ≡ slice_get
        (cheap_acts known.now.tasks.now known.now.bounds.now.entries entry bound.now task.now) 0 }
    ensures beside { IsBeside task.now state.now reached.new }
{
    let mut from = 0;
    while let Some(action) = found.least_from(from) {
        if let Some(failure) = cheap_action(
            known, task, far, entry, bound, state, action, reached,
        ) {
            return Some(failure);
        }
        from = action + 1;
    }
    None
}

/// The first failure of the actions of an entry's agent. The actions that are found, and the states after them, are
/// written into the last two.
fn agent_failure(
    known: &AuditData<'_>,
    task: &Task,
    finder: &Finder,
    entry: u64,
    bound: &FlatBound<'_>,
    state: &JointSets,
    found: &mut Bits,
    reached: &mut JointSets,
) -> Option<AuditVerdict>
    requires ready { IsReady known.now }
    requires finder { IsFinderOf task.now finder.now }
    requires team { Contains known.now.tasks.now task.now }
    requires state { joint_of state.now ≡ state_of bound.now }
    requires sizes { HasSizes known.now.tasks.now state.now }
    requires actions { found.old.size ≡ length task.now.acts }
    requires reached { HasSizes known.now.tasks.now reached.old }
    ensures first { result ≡ slice_get
        (cheap_acts known.now.tasks.now known.now.bounds.now.entries entry bound.now task.now) 0 }
    ensures actions { found.new.size ≡ length task.now.acts }
    ensures reached { HasSizes known.now.tasks.now reached.new }
{
    find_actions(task, finder, state, found);
    copy_state(reached, state);
    cheap_actions(
        known,
        task,
        &finder.far,
        entry,
        bound,
        state,
        found,
        reached,
    )
}

/// The first failure of the actions of an entry's agent, whose task stands in its place.
fn task_failure(
    known: &AuditData<'_>,
    task: &Task,
    place: usize,
    entry: u64,
    bound: &FlatBound<'_>,
    state: &JointSets,
    found: &mut Vec<Bits>,
    reached: &mut JointSets,
) -> Option<AuditVerdict>
    requires ready { IsReady known.now }
    requires task { slice_get known.now.tasks.now place ≡ Some task.now }
    requires state { joint_of state.now ≡ state_of bound.now }
    requires sizes { HasSizes known.now.tasks.now state.now }
    requires actions { AreActionSets known.now.tasks.now found.old.items }
    requires reached { HasSizes known.now.tasks.now reached.old }
    ensures first { result ≡ slice_get
        (cheap_acts known.now.tasks.now known.now.bounds.now.entries entry bound.now task.now) 0 }
    ensures actions { AreActionSets known.now.tasks.now found.new.items }
    ensures reached { HasSizes known.now.tasks.now reached.new }
{
    let finders = known.finders.as_slice();
    agent_failure(
        known,
        task,
        &finders[place],
        entry,
        bound,
        state,
        &mut found[place],
        reached,
    )
}

/// The task in a place.
fn task_at(tasks: &[Task], place: usize) -> Option<&Task>
    ensures { option_copied result ≡ slice_get tasks.now place }
{
    tasks.get(place)
}

/// The place of an agent.
fn place_of(agent: Agent) -> usize
    ensures place { result ≡ agent - 1 }
    ensures from_1 { 1 ≤ agent }
{
    agent.number() as usize - 1
}

/// The first failure of an entry.
fn entry_failure(
    known: &AuditData<'_>,
    entry: u64,
    bound: &FlatBound<'_>,
    state: &JointSets,
    found: &mut Vec<Bits>,
    reached: &mut JointSets,
) -> Option<AuditVerdict>
    requires ready { IsReady known.now }
    requires state { joint_of state.now ≡ state_of bound.now }
    requires sizes { HasSizes known.now.tasks.now state.now }
    requires actions { AreActionSets known.now.tasks.now found.old.items }
    requires reached { HasSizes known.now.tasks.now reached.old }
    ensures first { result ≡ slice_get
        (entry_failures known.now.tasks.now known.now.bounds.now.entries entry bound.now) 0 }
    ensures actions { AreActionSets known.now.tasks.now found.new.items }
    ensures reached { HasSizes known.now.tasks.now reached.new }
{
    if has_goals(known.tasks, state) {
        return Some(AuditVerdict::Goal(entry));
    }
    let place = place_of(bound.agent());
    let Some(task) = task_at(known.tasks, place) else {
        return None;
    };
    task_failure(known, task, place, entry, bound, state, found, reached)
}

/// The first failure of the entry in a place.
fn failure_at(
    known: &AuditData<'_>,
    entry: u64,
    place: usize,
    none: &JointSets,
    state: &mut JointSets,
    found: &mut Vec<Bits>,
    reached: &mut JointSets,
) -> Option<AuditVerdict>
    requires ready { IsReady known.now }
    requires inside { place < length known.now.bounds.now.entries }
    requires number { entry ≡ place + 1 }
    requires none { HasNoFacts known.now.tasks.now none.now }
    requires state { HasSizes known.now.tasks.now state.old }
    requires actions { AreActionSets known.now.tasks.now found.old.items }
    requires reached { HasSizes known.now.tasks.now reached.old }
    ensures first { (b : BoundParts) → slice_get known.now.bounds.now.entries place ≡ Some b → result ≡ slice_get
        (entry_failures known.now.tasks.now known.now.bounds.now.entries entry b) 0 }
    ensures state { HasSizes known.now.tasks.now state.new }
    ensures actions { AreActionSets known.now.tasks.now found.new.items }
    ensures reached { HasSizes known.now.tasks.now reached.new }
{
    let bound = known.bounds.entry(place);
    set_to(known.tasks, &bound, none, state);
    entry_failure(known, entry, &bound, state, found, reached)
}

/// An empty set of numbers of a task's actions.
fn no_actions(alloc: Global, task: &Task) -> Result<Bits, OutOfMemory>
    ensures { IfOk result (λ made. made.size ≡ length task.now.acts) }
{
    Bits::new(alloc, task.acts.len() as u32)
}

/// One for each task.
fn none_found(alloc: Global, tasks: &[Task]) -> Result<Vec<Bits>, OutOfMemory>
    ensures { IfOk result (λ found. AreActionSets tasks.now found.items) }
{
    let mut found = Vec::with_capacity(alloc, tasks.len())?;
    for task in tasks {
        let none = no_actions(alloc, task)?;
        found.push(none)?;
    }
    Ok(found)
}

/// The first failure of those of all entries. Refuses only for want of memory.
pub(crate) fn first_failing_entry(
    alloc: Global,
    known: &AuditData<'_>,
) -> Result<Option<AuditVerdict>, OutOfMemory>
    requires { IsReady known.now }
    ensures { IfOk result (λ first. first ≡ slice_get
        (all_entry_failures known.now.tasks.now known.now.bounds.now.entries) 0) }
{
    let none = no_facts(alloc, known.tasks)?;
    let mut state = no_facts(alloc, known.tasks)?;
    let mut reached = no_facts(alloc, known.tasks)?;
    let mut found = none_found(alloc, known.tasks)?;
    for place in 0..known.bounds.len() {
        let entry = place as u64 + 1;
        if let Some(failure) = failure_at(
            known,
            entry,
            place,
            &none,
            &mut state,
            &mut found,
            &mut reached,
        ) {
            return Ok(Some(failure));
        }
    }
    Ok(None)
}
