//! How an entry is expanded.

ghost use Rattle.std.specs.Prelude.{◌≡◌, ◌<◌, ◌≤◌, ◌+◌, ◌++◌, ◌^◌, [], ℕ, true, Some, IfOk, OnOk, IsSomeAnd, length, slice_get};
ghost use Rattle.std.specs.List.{cons_option};
ghost use Rattle.mp_task.specs.Limits.{ActFits};
ghost use Rattle.mp_applicable.specs.Index.{IsIndexOf};
ghost use Rattle.mp_store.specs.Laws.{IsEarlier};
ghost use Rattle.mp_store.specs.Minima.{best};
ghost use Rattle.mp_search.specs.AgentState.{same_state};
ghost use Rattle.mp_search.specs.Applying.{is_applicable_in, AreFound, HasApplied, HasRoom};
ghost use Rattle.mp_search.specs.Expansion.{expanded, with_actions};
ghost use Rattle.mp_search.specs.Offering.{offered_at, own_value};
ghost use Rattle.mp_search.specs.Search.{is_open_below};
ghost use Rattle.mp_search.specs.StateKeys.{reached_state, HasSizes};
ghost use Rattle.mp_search.specs.Steps.{parent_of, AreStatesOf, IsContext, IsExpanding};

use crate::answer::{Sending, SendingList};
use crate::context::{Context, Progress};
use crate::offering::{best_after, offer_found};
use crate::reached::Reached;
use crate::sending::{first_due, send_if_due};
use crate::states::{Arrival, States};
use mp_applicable::ActionIndex;
use mp_list::OutOfMemory;
use mp_sets::{Bits, Tags};
use mp_store::{Key, Origin};
use mp_task::{Act, Heuristic, Task};
use std::alloc::Global;

/// An entry that is expanded.
#[derive(Drop)]
pub(crate) struct Expanding {
    /// The entry's number.
    number: u64,
    /// What it cost to reach it.
    g: u64,
    /// Its state.
    state: Reached,
}

/// Where expansions work: kept from one to the next, so that its sets take memory once.
#[derive(Drop)]
pub(crate) struct Scratch {
    /// The own actions that may be applied.
    found: Bits,
    /// The entry that is expanded.
    parent: Expanding,
    /// The state that an action led to.
    reached: Reached,
}

/// A state of a task in which no fact is true.
fn empty_state(alloc: Global, task: &Task) -> Result<Reached, OutOfMemory>
    ensures { IfOk result (HasSizes task.now.publics task.now.privates) }
{
    Ok(Reached {
        key: Key {
            publics: Bits::new(alloc, task.publics)?,
            mine: 0,
            tags: Tags::new(alloc),
        },
        mine: Bits::new(alloc, task.privates)?,
    })
}

/// The set of no own action.
fn no_actions(alloc: Global, task: &Task) -> Result<Bits, OutOfMemory>
    ensures { IfOk result (λ none. none.size ≡ length task.now.acts) }
{
    Bits::new(alloc, task.acts.len() as u32)
}

/// Room for the expansions in a task.
pub(crate) fn scratch_for(alloc: Global, task: &Task) -> Result<Scratch, OutOfMemory>
    ensures { IfOk result (HasRoom task.now) }
{
    let found = no_actions(alloc, task)?;
    let state = empty_state(alloc, task)?;
    let reached = empty_state(alloc, task)?;
    Ok(Scratch {
        found,
        parent: Expanding {
            number: 0,
            g: 0,
            state,
        },
        reached,
    })
}

/// Makes tags equal to others. Their memory is used again.
fn set_tags(tags: &mut Tags, other: &Tags) -> Result<(), OutOfMemory>
    ensures { OnOk result (tags.new ≡ other.now) }
{
    tags.clear();
    for tag in other.as_slice() {
        tags.push(*tag)?;
    }
    Ok(())
}

/// An action of a task keeps to the limits of the task.
fn keeps_limits(task: &Task, number: u32, act: &Act)
    requires { slice_get task.now.acts number ≡ Some act.now }
    ensures fits { ActFits task.now.publics task.now.privates act.now }
    ensures inside { number < length task.now.acts }
{
    let _ = task.acts.len();
    let _ = act;
}

/// The action of a number.
fn action(task: &Task, number: u32) -> &Act
    requires { number < length task.now.acts }
    ensures { slice_get task.now.acts number ≡ Some result.now }
{
    &task.acts.as_slice()[number as usize]
}

/// Offers a state that an own action led to, at a cost, and gives the best entry that it has then. The state is looked up
/// once. The heuristic is asked only where no entry of the state costs as much or less: elsewhere the keep rule refuses
/// the state, whatever the estimate.
fn offer_new<H: Heuristic>(
    task: &Task,
    progress: &mut Progress<H>,
    reached: &mut Reached,
    g: u64,
    origin: Origin,
) -> Result<Option<u64>, OutOfMemory>
    requires heuristic { H.is_for progress.old.heuristic task.now }
    requires states { AreStatesOf task.now progress.old.states }
    requires sizes { HasSizes task.now.publics task.now.privates reached.old }
    requires parent { IsEarlier (length progress.old.states.kept.entries) origin }
    ensures kept { OnOk result (progress.new.states.kept ≡ (offered_at task.now (reached_state reached.old) g
        (own_value task.now (H.value task.now) (reached_state reached.old)) origin progress.old.states.kept).1) }
    ensures best { IfOk result (λ found. found ≡ best same_state (reached_state reached.old) progress.new.states.kept) }
    ensures longer { OnOk result (length progress.old.states.kept.entries ≤ length progress.new.states.kept.entries) }
    ensures states { OnOk result (AreStatesOf task.now progress.new.states) }
    ensures heuristic { H.is_for progress.new.heuristic task.now }
    ensures state { reached_state reached.new ≡ reached_state reached.old }
    ensures sizes { HasSizes task.now.publics task.now.privates reached.new }
{
    let found = progress.states.best(reached);
    if progress.states.is_as_cheap(found, g) {
        return Ok(found);
    }
    let value = progress
        .heuristic
        .value(&reached.key.publics, &reached.mine)?;
    match value {
        Some(h) => {
            let arrival = Arrival { g, h, origin };
            let received = offer_found(task, &mut progress.states, reached, found, arrival)?;
            Ok(best_after(found, received))
        }
        None => Ok(found),
    }
}

/// Applies the own action of a number, which may be applied: the state that it leads to is offered, and sent where that
/// is due.
fn add_found<H: Heuristic>(
    context: &Context,
    progress: &mut Progress<H>,
    number: u32,
    parent: &Expanding,
    reached: &mut Reached,
) -> Result<Option<Sending>, OutOfMemory>
    requires context { IsContext context.now }
    requires heuristic { H.is_for progress.old.heuristic context.now.task }
    requires states { AreStatesOf context.now.task progress.old.states }
    requires inside { number < length context.now.task.acts }
    requires parent { IsExpanding context.now.task progress.old.states parent.now }
    requires found { is_applicable_in context.now.task (reached_state parent.now.state) number ≡ true }
    requires sizes { HasSizes context.now.task.publics context.now.task.privates reached.old }
    requires tags { reached.old.key.tags ≡ parent.now.state.key.tags }
    ensures sent { IfOk result (HasApplied context.now.task (H.value context.now.task) (parent_of parent.now) number
        progress.old.states progress.new.states) }
    ensures heuristic { H.is_for progress.new.heuristic context.now.task }
    ensures sizes { HasSizes context.now.task.publics context.now.task.privates reached.new }
    ensures tags { reached.new.key.tags ≡ parent.now.state.key.tags }
{
    let task = &context.task;
    let act = action(task, number);
    keeps_limits(task, number, act);
    reached.follow(&parent.state, act);
    let origin = Origin::Own {
        action: number,
        parent: parent.number,
    };
    let found = offer_new(task, progress, reached, parent.g + act.cost, origin)?;
    let due = first_due(context, task.is_public(number), act, &parent.state, reached);
    send_if_due(context, &mut progress.states, reached, due, found)
}

/// Adds what was sent, if anything was.
fn add_sending(out: &mut SendingList, sending: Option<Sending>) -> Result<(), OutOfMemory>
    ensures { OnOk result (out.new ≡ out.old ++ cons_option sending []) }
{
    match sending {
        Some(sending) => out.push(sending),
        None => Ok(()),
    }
}

/// Applies each own action that may be applied, in number order.
fn add_actions<H: Heuristic>(
    context: &Context,
    progress: &mut Progress<H>,
    found: &Bits,
    parent: &Expanding,
    reached: &mut Reached,
) -> Result<SendingList, OutOfMemory>
    requires context { IsContext context.now }
    requires heuristic { H.is_for progress.old.heuristic context.now.task }
    requires states { AreStatesOf context.now.task progress.old.states }
    requires found { AreFound context.now.task (reached_state parent.now.state) found.now }
    requires parent { IsExpanding context.now.task progress.old.states parent.now }
    requires sizes { HasSizes context.now.task.publics context.now.task.privates reached.old }
    requires tags { reached.old.key.tags ≡ parent.now.state.key.tags }
    ensures sent { IfOk result (λ out. (out, progress.new.states.kept) ≡ with_actions context.now.task
        (H.value context.now.task) (parent_of parent.now) 0 context.now.task.acts progress.old.states.kept) }
    ensures states { OnOk result (AreStatesOf context.now.task progress.new.states) }
    ensures heuristic { H.is_for progress.new.heuristic context.now.task }
    ensures sizes { HasSizes context.now.task.publics context.now.task.privates reached.new }
{
    let mut out = SendingList::new(context.alloc);
    let mut from = 0;
    while let Some(number) = found.least_from(from) {
        let sending = add_found(context, progress, number, parent, reached)?;
        add_sending(&mut out, sending)?;
        from = number + 1;
    }
    Ok(out)
}

/// The own actions that may be applied in a state.
fn find(index: &ActionIndex, task: &Task, state: &Reached, found: &mut Bits)
    requires index { IsIndexOf task.now index.now }
    requires sizes { HasSizes task.now.publics task.now.privates state.now }
    requires size { found.old.size ≡ length task.now.acts }
    ensures { AreFound task.now (reached_state state.now) found.new }
{
    index.find(task, &state.key.publics, &state.mine, found);
}

/// Makes the entry of a number the one that is expanded.
fn set_parent(parent: &mut Expanding, states: &States, number: u64) -> Result<(), OutOfMemory>
    requires inside { number < length states.now.kept.entries }
    requires sizes { HasSizes states.now.publics states.now.privates parent.old.state }
    ensures entry { OnOk result (IsSomeAnd (slice_get states.now.kept.entries number)
        (λ e. parent_of parent.new ≡ record { number = number; state = e.key; g = e.g })) }
    ensures bounded { OnOk result (parent.new.g < 2 ^ 60) }
    ensures sizes { OnOk result (HasSizes states.now.publics states.now.privates parent.new.state) }
{
    let entry = states.entry(number);
    set_tags(&mut parent.state.key.tags, entry.tags)?;
    parent.state.key.publics.copy_from_view(&entry.publics);
    parent.state.mine.copy_from_view(&entry.mine);
    parent.number = number;
    parent.g = entry.g;
    Ok(())
}

/// Applies each own action that may be applied in an entry.
fn expand_entry<H: Heuristic>(
    context: &Context,
    progress: &mut Progress<H>,
    number: u64,
    scratch: &mut Scratch,
) -> Result<SendingList, OutOfMemory>
    requires context { IsContext context.now }
    requires heuristic { H.is_for progress.old.heuristic context.now.task }
    requires states { AreStatesOf context.now.task progress.old.states }
    requires inside { number < length progress.old.states.kept.entries }
    requires room { HasRoom context.now.task scratch.old }
    ensures sent { IfOk result (λ out. IsSomeAnd (slice_get progress.old.states.kept.entries number) (λ e.
        (out, progress.new.states.kept) ≡ with_actions context.now.task (H.value context.now.task)
        (record { number = number; state = e.key; g = e.g }) 0 context.now.task.acts progress.old.states.kept)) }
    ensures states { OnOk result (AreStatesOf context.now.task progress.new.states) }
    ensures heuristic { H.is_for progress.new.heuristic context.now.task }
    ensures room { OnOk result (HasRoom context.now.task scratch.new) }
{
    let parent = &mut scratch.parent;
    let reached = &mut scratch.reached;
    set_parent(parent, &progress.states, number)?;
    set_tags(&mut reached.key.tags, &parent.state.key.tags)?;
    find(
        &context.actions,
        &context.task,
        &parent.state,
        &mut scratch.found,
    );
    add_actions(context, progress, &scratch.found, parent, reached)
}

/// Expands the least open entry.
pub(crate) fn expand_least<H: Heuristic>(
    context: &Context,
    progress: &mut Progress<H>,
    scratch: &mut Scratch,
) -> Result<SendingList, OutOfMemory>
    requires context { IsContext context.now }
    requires heuristic { H.is_for progress.old.heuristic context.now.task }
    requires states { AreStatesOf context.now.task progress.old.states }
    requires open { is_open_below progress.old.states.kept ≡ true }
    requires room { HasRoom context.now.task scratch.old }
    ensures expanded { IfOk result (λ out. (expansions : ℕ)
        → (out, record { kept = progress.new.states.kept; expansions = expansions + 1 })
        ≡ expanded context.now.task (H.value context.now.task)
        (record { kept = progress.old.states.kept; expansions = expansions })) }
    ensures states { OnOk result (AreStatesOf context.now.task progress.new.states) }
    ensures heuristic { H.is_for progress.new.heuristic context.now.task }
    ensures room { OnOk result (HasRoom context.now.task scratch.new) }
{
    let Some(number) = progress.states.pop_least() else {
        return Ok(SendingList::new(context.alloc));
    };
    expand_entry(context, progress, number, scratch)
}
