//! Which states are sent, and to whom.

ghost use Rattle.std.specs.Prelude.{◌≡◌, ◌≤◌, ◌==◌, ◌||◌, ◌&&◌, ◌++◌, ◌+◌, ◌<◌, ◌^◌, not, is_some, length, IfOk, IfSome, OnOk};
ghost use Rattle.std.specs.List.{list_all, list_any, enumerate_from};
ghost use Rattle.mp_task.specs.Met.{is_met};
ghost use Rattle.mp_applicable.specs.Far.{IsFarIndexOf};
ghost use Rattle.mp_task.specs.Public as public;
ghost use Rattle.mp_search.specs.AgentState.{is_goal_state};
ghost use Rattle.mp_search.specs.Concern.{concerns, is_receiver, is_visible, one_if, receivers, IsFirstReceiver};
ghost use Rattle.mp_search.specs.StateKeys.{reached_state, HasSizes};

use crate::answer::AgentList;
use crate::reached::Reached;
use mp_applicable::FarIndex;
use mp_list::OutOfMemory;
use mp_sets::{Agent, BitsView, Tag};
use mp_task::{Act, Task};
use std::alloc::Global;

/// Whether the agent's private goals all hold.
pub(crate) fn is_met(task: &Task, mine: &BitsView<'_>) -> bool
    requires { mine.now.size ≡ task.now.privates }
    ensures { result ≡ is_met task.now mine.now.members }
{
    mine.holds(&task.goal_priv)
}

/// Whether tags, of which so many come before, say of all agents but one that their private goals hold.
fn are_others_met(me: Agent, before: usize, tags: &[Tag]) -> bool
    requires { before + length tags.now < 2 ^ 64 }
    ensures { result ≡ list_all (λ x. (x.0 == me) || x.1.met) (enumerate_from (before + 1) tags.now) }
{
    match tags {
        [] => true,
        [tag, rest @ ..] => {
            (before + 1 == me.number() as usize || tag.met) && are_others_met(me, before + 1, rest)
        }
    }
}

/// Whether all goals hold in a state.
pub(crate) fn is_goal(task: &Task, state: &Reached) -> bool
    requires { HasSizes task.now.publics task.now.privates state.now }
    ensures { result ≡ is_goal_state task.now (reached_state state.now) }
{
    state.key.publics.holds(&task.goal_pub)
        && is_met(task, &state.mine.view())
        && are_others_met(task.me, 0, state.key.tags.as_slice())
}

/// Whether tags, of which so many come before, say of an agent that its private goals don't all hold.
fn is_unmet(agent: Agent, before: usize, tags: &[Tag]) -> bool
    requires { before + length tags.now < 2 ^ 64 }
    ensures { result ≡ list_any (λ x. (x.0 == agent) && not x.1.met) (enumerate_from (before + 1) tags.now) }
{
    match tags {
        [] => false,
        [tag, rest @ ..] => {
            (before + 1 == agent.number() as usize && !tag.met) || is_unmet(agent, before + 1, rest)
        }
    }
}

/// Whether a state concerns an agent.
fn concerns(task: &Task, far: &FarIndex, agent: Agent, state: &Reached) -> bool
    requires index { IsFarIndexOf task.now far.now }
    requires team { agent ≤ task.now.agents }
    requires sizes { HasSizes task.now.publics task.now.privates state.now }
    ensures { result ≡ concerns task.now (reached_state state.now) agent }
{
    far.may_act(task, agent, &state.key.publics) || is_unmet(agent, 0, state.key.tags.as_slice())
}

/// The agent of a number, if it is another one that a state concerns.
fn receiver(task: &Task, far: &FarIndex, number: u16, state: &Reached) -> Option<Agent>
    requires index { IsFarIndexOf task.now far.now }
    requires from_1 { 1 ≤ number }
    requires at_most { number ≤ 16 }
    requires team { number ≤ task.now.agents }
    requires sizes { HasSizes task.now.publics task.now.privates state.now }
    ensures some { is_some result ≡ is_receiver task.now (reached_state state.now) number }
    ensures agent { IfSome result (λ agent. agent ≡ number) }
{
    let agent = Agent::new(number)?;
    if agent != task.me && concerns(task, far, agent, state) {
        return Some(agent);
    }
    None
}

/// Adds an agent if it is another one that a state concerns.
fn add_receiver(
    to: &mut AgentList,
    task: &Task,
    far: &FarIndex,
    number: u16,
    state: &Reached,
) -> Result<(), OutOfMemory>
    requires index { IsFarIndexOf task.now far.now }
    requires from_1 { 1 ≤ number }
    requires at_most { number ≤ 16 }
    requires team { number ≤ task.now.agents }
    requires sizes { HasSizes task.now.publics task.now.privates state.now }
    ensures { OnOk result (to.new ≡ to.old ++ one_if (is_receiver task.now (reached_state state.now) number) number) }
{
    if let Some(agent) = receiver(task, far, number, state) {
        to.push(agent)?;
    }
    Ok(())
}

/// The first other agent that a state concerns, if there is one. Takes no memory.
pub(crate) fn first_receiver(task: &Task, far: &FarIndex, state: &Reached) -> Option<Agent>
    requires index { IsFarIndexOf task.now far.now }
    requires sizes { HasSizes task.now.publics task.now.privates state.now }
    ensures some { is_some result ≡ not (length (receivers task.now (reached_state state.now)) == 0) }
    ensures first { IfSome result (IsFirstReceiver task.now (reached_state state.now)) }
{
    for before in 0..task.agents {
        let found = receiver(task, far, before + 1, state);
        if found.is_some() {
            return found;
        }
    }
    None
}

/// The other agents that a state concerns, by rising number, of which the first one is known.
pub(crate) fn receivers(
    alloc: Global,
    task: &Task,
    far: &FarIndex,
    first: Agent,
    state: &Reached,
) -> Result<AgentList, OutOfMemory>
    requires index { IsFarIndexOf task.now far.now }
    requires first { IsFirstReceiver task.now (reached_state state.now) first }
    requires sizes { HasSizes task.now.publics task.now.privates state.now }
    ensures { IfOk result (λ to. to ≡ receivers task.now (reached_state state.now)) }
{
    let mut to = AgentList::new(alloc);
    to.push(first)?;
    for before in first.number()..task.agents {
        add_receiver(&mut to, task, far, before + 1, state)?;
    }
    Ok(to)
}

/// Whether others may see what an own action did.
pub(crate) fn is_visible(
    task: &Task,
    is_public: bool,
    act: &Act,
    before: &Reached,
    after: &Reached,
) -> bool
    requires public { is_public ≡ public.is_public act.now }
    requires before { HasSizes task.now.publics task.now.privates before.now }
    requires after { HasSizes task.now.publics task.now.privates after.now }
    ensures { result ≡ is_visible task.now act.now (reached_state before.now) (reached_state after.now) }
{
    let _ = act;
    is_public || (!is_met(task, &before.mine.view()) && is_met(task, &after.mine.view()))
}
