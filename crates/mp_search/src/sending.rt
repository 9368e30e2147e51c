//! What is sent of a state.

ghost use Rattle.std.specs.Prelude.{◌≡◌, ◌<◌, [], if◌then◌else◌, is_some, IfOk, IfSome, Some, length, map};
ghost use Rattle.mp_store.specs.Minima.{best};
ghost use Rattle.mp_store.specs.Sent.{mark_sent};
ghost use Rattle.mp_task.specs.Public as public;
ghost use Rattle.mp_search.specs.Concern.{IsFirstReceiver};
ghost use Rattle.mp_search.specs.AgentState.{same_state, start_state, start_tag, with_tag};
ghost use Rattle.mp_search.specs.Search.{tokens_given};
ghost use Rattle.mp_search.specs.Sending.{is_due, sent_best, sent_entry_of};
ghost use Rattle.mp_search.specs.StateKeys.{reached_state, HasSizes, IsMessageOf};
ghost use Rattle.mp_search.specs.Steps.{AreStatesOf, HasSent, IsContext};

use crate::answer::Sending;
use crate::concern::{first_receiver, is_visible, receivers};
use crate::context::Context;
use crate::reached::Reached;
use crate::states::{Shown, States};
use mp_list::{Copied, OutOfMemory};
use mp_messages::State;
use mp_sets::{Agent, Bits, Tag, Tags};
use mp_store::Key;
use mp_task::{Act, Task};
use std::alloc::Global;

/// Tags with another one in the place of an agent.
pub(crate) fn with_tag(
    alloc: Global,
    tags: &Tags,
    agent: Agent,
    tag: Tag,
) -> Result<Tags, OutOfMemory>
    ensures { IfOk result (λ made. made ≡ with_tag tags.now agent tag) }
{
    let mut made = Tags::with_capacity(alloc, tags.len())?;
    for (i, old) in tags.as_slice().iter().enumerate() {
        let new = if i + 1 == agent.number() as usize {
            tag
        } else {
            *old
        };
        made.push(new)?;
    }
    Ok(made)
}

/// The message of an entry under a sent number, with a token for the own set.
fn message(
    alloc: Global,
    task: &Task,
    number: u64,
    token: u64,
    entry: Shown<'_>,
) -> Result<State, OutOfMemory>
    requires publics { entry.publics.size ≡ task.now.publics }
    requires privates { entry.mine.size ≡ task.now.privates }
    ensures { IfOk result (λ state. IsMessageOf task.now number token entry.entry state) }
{
    let tag = Tag {
        token,
        met: entry.mine.holds(&task.goal_priv),
    };
    Ok(State {
        sent: number,
        g: entry.g,
        h: entry.h,
        facts: entry.publics.list()?,
        tags: with_tag(alloc, entry.tags, task.me, tag)?,
    })
}

/// Sends the state of an entry to the agents that it concerns, unless it was sent at that cost or less.
fn send_entry(
    context: &Context,
    states: &mut States,
    state: &Reached,
    first: Agent,
    entry: u64,
) -> Result<Option<Sending>, OutOfMemory>
    requires context { IsContext context.now }
    requires states { AreStatesOf context.now.task states.old }
    requires sizes { HasSizes context.now.task.publics context.now.task.privates state.now }
    requires first { IsFirstReceiver context.now.task (reached_state state.now) first }
    requires inside { entry < length states.old.kept.entries }
    ensures { IfOk result (HasSent context.now.task
        (sent_entry_of context.now.task (reached_state state.now) (Some entry) states.old.kept)
        states.old states.new) }
{
    let Some((number, token)) = states.send(entry)? else {
        return Ok(None);
    };
    let to = receivers(context.alloc, &context.task, &context.far, first, state)?;
    let state = message(
        context.alloc,
        &context.task,
        number,
        token,
        states.entry(entry),
    )?;
    Ok(Some(Sending { state, to }))
}

/// The first agent that a state that an own action led to is due to be sent to, if there is one. Takes no memory.
pub(crate) fn first_due(
    context: &Context,
    is_public: bool,
    act: &Act,
    before: &Reached,
    state: &Reached,
) -> Option<Agent>
    requires context { IsContext context.now }
    requires public { is_public ≡ public.is_public act.now }
    requires before { HasSizes context.now.task.publics context.now.task.privates before.now }
    requires sizes { HasSizes context.now.task.publics context.now.task.privates state.now }
    ensures due { is_some result ≡ is_due context.now.task act.now (reached_state before.now) (reached_state state.now) }
    ensures first { IfSome result (IsFirstReceiver context.now.task (reached_state state.now)) }
{
    if is_visible(&context.task, is_public, act, before, state) {
        return first_receiver(&context.task, &context.far, state);
    }
    None
}

/// Sends the best entry of a state, if it has one, where there is an agent to send it to. Both are known: that entry, and
/// the first of these agents.
pub(crate) fn send_if_due(
    context: &Context,
    states: &mut States,
    state: &Reached,
    due: Option<Agent>,
    found: Option<u64>,
) -> Result<Option<Sending>, OutOfMemory>
    requires context { IsContext context.now }
    requires states { AreStatesOf context.now.task states.old }
    requires sizes { HasSizes context.now.task.publics context.now.task.privates state.now }
    requires due { IfSome due (IsFirstReceiver context.now.task (reached_state state.now)) }
    requires found { found ≡ best same_state (reached_state state.now) states.old.kept }
    ensures { IfOk result (HasSent context.now.task
        (if is_some due then sent_best context.now.task (reached_state state.now) states.old.kept
        else ([], states.old.kept)) states.old states.new) }
{
    let Some(first) = due else {
        return Ok(None);
    };
    match found {
        Some(entry) => send_entry(context, states, state, first, entry),
        None => Ok(None),
    }
}

/// Tags that say of each agent whether its private goals hold at the start.
fn start_tags(alloc: Global, task: &Task) -> Result<Tags, OutOfMemory>
    ensures { IfOk result (λ tags. tags ≡ map start_tag task.now.met) }
{
    let mut tags = Tags::new(alloc);
    for met in task.met.as_slice() {
        tags.push(Tag {
            token: 0,
            met: *met,
        })?;
    }
    Ok(tags)
}

/// The state at the start.
pub(crate) fn start_state(alloc: Global, task: &Task) -> Result<Reached, OutOfMemory>
    ensures state { IfOk result (λ made. reached_state made ≡ start_state task.now) }
    ensures sizes { IfOk result (λ made. HasSizes task.now.publics task.now.privates made) }
{
    let tags = start_tags(alloc, task)?;
    let none = Tag {
        token: 0,
        met: false,
    };
    Ok(Reached {
        key: Key {
            publics: Bits::from_list(alloc, task.publics, &task.start_pub)?,
            mine: 0,
            tags: with_tag(alloc, &tags, task.me, none)?,
        },
        mine: Bits::from_list(alloc, task.privates, &task.start_priv)?,
    })
}
