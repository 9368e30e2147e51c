//! Bounds that are made of the entries of agents.

ghost use Rattle.std.specs.Prelude.{◌≡◌, ◌++◌, ◌∷◌, ◌-◌, ◌<◌, ◌≤◌, ◌&&◌, nat_lt, [], length, map, reverse, slice_get, take, All, IfOk, List, OnOk, Some};
ghost use Rattle.mp_store.specs.declared.entry.Entry.{Entry};
ghost use Rattle.mp_search.specs.AgentState.{AgentState};
ghost use Rattle.mp_search.specs.StateKeys.{IsShown};
ghost use Rattle.mp_schedule.specs.Machines.{tasks_of, world_of};
ghost use Rattle.mp_audit.specs.LastCut.{said_by, worth};
ghost use Rattle.mp_certify.specs.Latest.{latest, latest_bounds, latest_bounds_of};
ghost use Rattle.mp_certify.specs.Made.{shown_worth, with_first, AreMade, IsStateIn};
ghost use Rattle.mp_certify.specs.Team.{AreOfTeam, IsOfTeam};

use crate::facts::private_lists;
use crate::key::{StateKey, is_new};
use crate::team::{agent_at, noted_count, shown_at};
use mp_audit::{Bound, BoundList};
use mp_list::{List, OutOfMemory};
use mp_machine::Machine;
use mp_search::Shown;
use mp_sets::Agent;
use mp_task::Heuristic;
use std::alloc::Global;
use std::collections::HashSet;

/// The bound of an entry of an agent that costs less than a plan.
fn bound_of<H: Heuristic>(
    alloc: Global,
    machines: &[Machine<H>],
    me: Agent,
    cost: u64,
    shown: &Shown<'_>,
) -> Result<Bound, OutOfMemory>
    requires team { AreOfTeam machines.now }
    requires me { me ≤ length machines.now }
    requires state { IsStateIn machines.now me shown.now }
    requires cheap { shown.now.g < cost }
    ensures said { IfOk result (λ b. said_by b ≡ shown_worth machines.now cost me shown.now) }
    ensures team { IfOk result (IsOfTeam (tasks_of machines.now)) }
{
    let publics = shown.publics.list()?;
    let privates = private_lists(alloc, machines, me, &shown.mine, shown.tags.as_slice())?;
    Ok(Bound {
        agent: me,
        bound: cost - shown.g,
        publics,
        privates,
    })
}

/// Whether an entry has a bound: it costs less than a plan, and its state is new.
fn has_bound(g: u64, cost: u64, fresh: bool) -> bool
    ensures { result ≡ (nat_lt g cost && fresh) }
{
    g < cost && fresh
}

/// Adds the bound of an entry of an agent, if it has one.
fn add_if<H: Heuristic>(
    alloc: Global,
    machines: &[Machine<H>],
    me: Agent,
    cost: u64,
    shown: &Shown<'_>,
    fresh: bool,
    made: &mut Vec<Bound>,
) -> Result<(), OutOfMemory>
    requires team { AreOfTeam machines.now }
    requires me { me ≤ length machines.now }
    requires state { IsStateIn machines.now me shown.now }
    ensures said { OnOk result (map said_by (reverse made.new.items)
        ≡ with_first (nat_lt shown.now.g cost && fresh) (shown_worth machines.now cost me shown.now)
        (map said_by (reverse made.old.items))) }
    ensures team { OnOk result (All (IsOfTeam (tasks_of machines.now)) made.old.items
        → All (IsOfTeam (tasks_of machines.now)) made.new.items) }
{
    if has_bound(shown.g, cost, fresh) {
        let bound = bound_of(alloc, machines, me, cost, shown)?;
        made.push(bound)?;
        return Ok(());
    }
    Ok(())
}

/// Goes on to the entry of an agent that stands before some others: adds its bound, if it has one, and notes its state as met.
fn add_earlier<'a, H: Heuristic>(
    alloc: Global,
    machines: &[Machine<H>],
    me: Agent,
    cost: u64,
    shown: &Shown<'a>,
    met: &mut HashSet<StateKey<'a>>,
    made: &mut Vec<Bound>,
) -> Result<(), OutOfMemory>
    requires team { AreOfTeam machines.now }
    requires me { me ≤ length machines.now }
    requires state { IsStateIn machines.now me shown.now }
    ensures { OnOk result ((e : Entry AgentState) (later : List (Entry AgentState)) → IsShown shown.now e
        → AreMade machines.now me cost later met.old.keys made.old.items
        → AreMade machines.now me cost (e ∷ later) met.new.keys made.new.items) }
{
    let fresh = is_new(met, shown)?;
    add_if(alloc, machines, me, cost, shown, fresh, made)?;
    Ok(())
}

/// The bounds of the latest entries of their states among the first ones of an agent, so many of them, the last one first.
fn turned_bounds<H: Heuristic>(
    alloc: Global,
    machines: &[Machine<H>],
    machine: &Machine<H>,
    me: Agent,
    cost: u64,
    count: u64,
) -> Result<Vec<Bound>, OutOfMemory>
    requires team { AreOfTeam machines.now }
    requires from_1 { 1 ≤ me }
    requires there { slice_get machines.now (me - 1) ≡ Some machine.now }
    requires within { count ≤ length machine.now.done.search.kept.entries }
    ensures said { IfOk result (λ made. map said_by (reverse made.items)
        ≡ map (worth (world_of machines.now []) cost me)
        (latest cost (take count machine.now.done.search.kept.entries))) }
    ensures team { IfOk result (λ made. All (IsOfTeam (tasks_of machines.now)) made.items) }
{
    let mut met = HashSet::new(alloc);
    let mut made = Vec::new(alloc);
    for later in 0..count {
        let shown = shown_at(machine, count - 1 - later);
        add_earlier(alloc, machines, me, cost, &shown, &mut met, &mut made)?;
    }
    Ok(made)
}

/// The bounds of the latest entries of their states that an agent had noted, in the order of its entries.
fn bounds_of<H: Heuristic>(
    alloc: Global,
    machines: &[Machine<H>],
    machine: &Machine<H>,
    me: Agent,
    cost: u64,
) -> Result<Vec<Bound>, OutOfMemory>
    requires team { AreOfTeam machines.now }
    requires from_1 { 1 ≤ me }
    requires there { slice_get machines.now (me - 1) ≡ Some machine.now }
    ensures said { IfOk result (λ made. map said_by made.items
        ≡ latest_bounds_of (world_of machines.now []) cost machine.now.done) }
    ensures team { IfOk result (λ made. All (IsOfTeam (tasks_of machines.now)) made.items) }
{
    let count = noted_count(machine);
    let mut made = turned_bounds(alloc, machines, machine, me, cost, count)?;
    made.reverse();
    Ok(made)
}

/// Adds bounds to others.
fn add_all(bounds: &mut BoundList, made: Vec<Bound>) -> Result<(), OutOfMemory>
    ensures { OnOk result (bounds.new ≡ bounds.old ++ made.items) }
{
    for bound in made {
        bounds.push(bound)?;
    }
    Ok(())
}

/// The bounds of the latest entries of their states that the agents of a team had noted, agent by agent and within an agent in
/// the order of its entries. Refuses only for want of memory.
pub(crate) fn all_bounds<H: Heuristic>(
    alloc: Global,
    machines: &[Machine<H>],
    cost: u64,
) -> Result<BoundList, OutOfMemory>
    requires { AreOfTeam machines.now }
    ensures said { IfOk result (λ bounds. map said_by bounds
        ≡ latest_bounds (world_of machines.now []) cost) }
    ensures team { IfOk result (All (IsOfTeam (tasks_of machines.now))) }
{
    let mut bounds = List::new(alloc);
    for (place, machine) in machines.iter().enumerate() {
        let made = bounds_of(alloc, machines, machine, agent_at(place), cost)?;
        add_all(&mut bounds, made)?;
    }
    Ok(bounds)
}
