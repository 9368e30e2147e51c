//! Joint states, as sets.

ghost use Rattle.std.specs.Prelude.{◌≡◌, ◌<◌, map, length, option_map, slice_get, slice_index_or, slice_set, IfOk, Some};
ghost use Rattle.std.specs.FinSet as set;
ghost use Rattle.mp_sets.specs.Numbers.{SizedSet};
ghost use Rattle.mp_task.specs.Limits.{AllLess};
ghost use Rattle.mp_task.specs.Plan.{joint_start, public_start as public_start_of};
ghost use Rattle.mp_audit.specs.Audited.{set_of, state_of};
ghost use Rattle.mp_audit.specs.Fits.{publics_of, BoundFits, PrivatesFit};
ghost use Rattle.mp_audit.specs.States.{joint_of, no_privates, sized_sets, sizes_of, HasNoFacts, HasSizes};

use crate::flat_bounds::FlatBound;
use mp_list::OutOfMemory;
use mp_sets::Bits;
use mp_task::Task;
use std::alloc::Global;

/// A joint state.
pub(crate) struct JointSets {
    /// The public facts that are true.
    pub(crate) publics: Bits,
    /// For each agent the private facts that are true.
    pub(crate) privates: Vec<Bits>,
}

impl Drop for JointSets {
    fn drop(self) {
        let JointSets {
            publics: _,
            privates: _,
        } = self;
    }
}

/// How many public facts a team has.
fn public_size(tasks: &[Task]) -> u32
    ensures { result ≡ publics_of tasks.now }
{
    match tasks {
        [] => 0,
        [task, ..] => task.publics,
    }
}

/// Makes a set that of these facts. The other set is an empty one of its size.
fn fill(made: &mut Bits, none: &Bits, facts: &[u32])
    requires none { none.now ≡ record { size = made.old.size; members = set.empty } }
    requires facts { AllLess made.old.size facts.now }
    ensures { made.new ≡ record { size = made.old.size; members = set_of facts.now } }
{
    made.copy_from(none);
    for fact in facts {
        made.insert(*fact);
    }
}

/// Makes the set of a task's agent that of these private facts.
fn fill_own(task: &Task, sets: &mut Vec<Bits>, none: &[Bits], place: usize, facts: &[u32])
    requires size { option_map (λ s. s.size) (slice_get sets.old.items place) ≡ Some task.now.privates }
    requires none { slice_get none.now place ≡ Some (no_privates task.now) }
    requires facts { AllLess task.now.privates facts.now }
    ensures { sets.new.items
        ≡ slice_set sets.old.items place (record { size = task.now.privates; members = set_of facts.now }) }
{
    let _ = task;
    fill(&mut sets[place], &none[place], facts);
}

/// Makes the sets of all agents those of the private facts of an entry.
fn fill_privates(tasks: &[Task], bound: &FlatBound<'_>, none: &[Bits], sets: &mut Vec<Bits>)
    requires fits { PrivatesFit tasks.now bound.now.privates }
    requires none { none.now ≡ map no_privates tasks.now }
    requires sizes { sizes_of sets.old.items ≡ map (λ t. t.privates) tasks.now }
    ensures { sets.new.items ≡ sized_sets tasks.now bound.now.privates }
{
    for (place, task) in tasks.iter().enumerate() {
        let facts = bound.privates_at(place);
        fill_own(task, sets, none, place, facts);
    }
}

/// Makes a joint state that of an entry. In the other one no fact is true. Takes no memory.
pub(crate) fn set_to(tasks: &[Task], bound: &FlatBound<'_>, none: &JointSets, state: &mut JointSets)
    requires fits { BoundFits tasks.now bound.now }
    requires none { HasNoFacts tasks.now none.now }
    requires sizes { HasSizes tasks.now state.old }
    ensures joint { joint_of state.new ≡ state_of bound.now }
    ensures sizes { HasSizes tasks.now state.new }
{
    fill(&mut state.publics, &none.publics, bound.publics());
    fill_privates(tasks, bound, none.privates.as_slice(), &mut state.privates);
}

/// Makes the set in a place the one that stands there among others.
fn copy_set(copies: &mut Vec<Bits>, sets: &[Bits], place: usize)
    requires inside { place < length sets.now }
    requires sizes { sizes_of copies.old.items ≡ sizes_of sets.now }
    ensures { (s : SizedSet) → s ≡ slice_index_or sets.now place s
        → copies.new.items ≡ slice_set copies.old.items place s }
{
    copies[place].copy_from(&sets[place]);
}

/// Makes sets others of the same sizes.
fn copy_sets(copies: &mut Vec<Bits>, sets: &[Bits])
    requires { sizes_of copies.old.items ≡ sizes_of sets.now }
    ensures { copies.new.items ≡ sets.now }
{
    for place in 0..sets.len() {
        copy_set(copies, sets, place);
    }
}

/// Makes a joint state another one of the same team. Takes no memory.
pub(crate) fn copy_state(copy: &mut JointSets, state: &JointSets)
    requires publics { copy.old.publics.size ≡ state.now.publics.size }
    requires privates { sizes_of copy.old.privates.items ≡ sizes_of state.now.privates.items }
    ensures publics { copy.new.publics ≡ state.now.publics }
    ensures privates { copy.new.privates.items ≡ state.now.privates.items }
{
    copy.publics.copy_from(&state.publics);
    copy_sets(&mut copy.privates, state.privates.as_slice());
}

/// An empty set of private facts of a task's agent.
fn no_privates(alloc: Global, task: &Task) -> Result<Bits, OutOfMemory>
    ensures { IfOk result (λ made. made ≡ no_privates task.now) }
{
    Bits::new(alloc, task.privates)
}

/// One for each agent.
fn none_private(alloc: Global, tasks: &[Task]) -> Result<Vec<Bits>, OutOfMemory>
    ensures { IfOk result (λ sets. sets.items ≡ map no_privates tasks.now) }
{
    let mut sets = Vec::with_capacity(alloc, tasks.len())?;
    for task in tasks {
        let set = no_privates(alloc, task)?;
        sets.push(set)?;
    }
    Ok(sets)
}

/// The joint state of a team in which no fact is true. Refuses only for want of memory.
pub(crate) fn no_facts(alloc: Global, tasks: &[Task]) -> Result<JointSets, OutOfMemory>
    ensures none { IfOk result (HasNoFacts tasks.now) }
    ensures sizes { IfOk result (HasSizes tasks.now) }
{
    let publics = Bits::new(alloc, public_size(tasks))?;
    let privates = none_private(alloc, tasks)?;
    Ok(JointSets { publics, privates })
}

/// The public facts that are true at the start.
fn task_publics(alloc: Global, task: &Task) -> Result<Bits, OutOfMemory>
    ensures { IfOk result (λ made. made
        ≡ record { size = task.now.publics; members = set.from_list task.now.start_pub }) }
{
    Bits::from_list(alloc, task.publics, &task.start_pub)
}

/// The private facts that are true at the start.
fn task_privates(alloc: Global, task: &Task) -> Result<Bits, OutOfMemory>
    ensures { IfOk result (λ made. made
        ≡ record { size = task.now.privates; members = set.from_list task.now.start_priv }) }
{
    Bits::from_list(alloc, task.privates, &task.start_priv)
}

/// The public facts of a team that are true at the start.
fn public_start(alloc: Global, tasks: &[Task]) -> Result<Bits, OutOfMemory>
    ensures { IfOk result (λ made. made
        ≡ record { size = publics_of tasks.now; members = public_start_of tasks.now }) }
{
    match tasks {
        [] => Bits::new(alloc, 0),
        [task, ..] => task_publics(alloc, task),
    }
}

/// The private facts of each agent that are true at the start.
fn private_starts(alloc: Global, tasks: &[Task]) -> Result<Vec<Bits>, OutOfMemory>
    ensures { IfOk result (λ sets. sets.items
        ≡ map (λ t. record { size = t.privates; members = set.from_list t.start_priv }) tasks.now) }
{
    let mut sets = Vec::with_capacity(alloc, tasks.len())?;
    for task in tasks {
        let set = task_privates(alloc, task)?;
        sets.push(set)?;
    }
    Ok(sets)
}

/// The joint start of a team. Refuses only for want of memory.
pub(crate) fn start_state(alloc: Global, tasks: &[Task]) -> Result<JointSets, OutOfMemory>
    ensures joint { IfOk result (λ state. joint_of state ≡ joint_start tasks.now) }
    ensures sizes { IfOk result (HasSizes tasks.now) }
{
    let publics = public_start(alloc, tasks)?;
    let privates = private_starts(alloc, tasks)?;
    Ok(JointSets { publics, privates })
}
