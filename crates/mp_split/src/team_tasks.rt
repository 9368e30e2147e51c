//! The tasks of a team from the factors of its agents.

ghost use Rattle.std.specs.Prelude.{◌≡◌, ◌<◌, ◌≤◌, ◌+◌, ◌++◌, ◌∷◌, [], ℕ, All, length, map, Some, slice_get, IfOk, IfErr, OnOk};
ghost use Rattle.std.specs.Simd.Lanes.{zip2};
ghost use Rattle.mp_forms.specs.declared.factor.Factor.{Factor};
ghost use Rattle.mp_views.specs.Lines.{view_text};
ghost use Rattle.mp_views.specs.Opened.{open_view as open_view_of};
ghost use Rattle.mp_grounder.specs.Limits.{IsWithin, KeepsLimits};
ghost use Rattle.mp_split.specs.Begun.{AreBegun};
ghost use Rattle.mp_split.specs.Closed.{closed_view as closed_view_of};
ghost use Rattle.mp_split.specs.Common.{IsReady};
ghost use Rattle.mp_split.specs.TaskOf.{task_of};
ghost use Rattle.mp_split.specs.Team.{AreTasksOf, IsFirstRefusal, known_at, open_views};

use crate::closed::closed_view;
use crate::common::{make_common, table_of};
use crate::task::tasks_of;
use crate::team::{Tasks, Views};
use mp_grounder::{Ground, GroundRefusal, ground};
use mp_lifting::{FactTexts, OpenView};
use mp_list::{List, OutOfMemory};
use mp_sets::Agent;
use mp_sexp::NameTable;
use mp_typing::CheckedFactor;
use mp_views::{View, join, open_view, view_bytes};
use std::alloc::Global;

/// What each agent shows before grounding.
fn make_open_views(alloc: Global, factors: &[CheckedFactor]) -> Result<Vec<OpenView>, OutOfMemory>
    ensures { IfOk result (λ views. views.items ≡ map open_view_of factors.now) }
{
    let mut views = Vec::with_capacity(alloc, factors.len())?;
    for factor in factors {
        views.push(open_view(alloc, factor)?)?;
    }
    Ok(views)
}

/// The agent at a place of the team, counted from 0.
fn agent_at(place: usize) -> Agent
    requires { place < 16 }
    ensures { result ≡ place + 1 }
{
    match Agent::new(place as u16 + 1) {
        Some(agent) => agent,
        None => Agent::first(),
    }
}

/// Adds a grounded factor.
fn keep(grounds: &mut Vec<Ground>, ground: Ground) -> Result<(), OutOfMemory>
    ensures { OnOk result (grounds.new.items ≡ grounds.old.items ++ ground ∷ []) }
{
    grounds.push(ground)?;
    Ok(())
}

/// Adds the grounded factor of the next agent.
fn add_ground(
    alloc: Global,
    grounds: &mut Vec<Ground>,
    factor: &CheckedFactor,
    known: &OpenView,
) -> Result<(), GroundRefusal>
    requires { length grounds.old.items < 16 }
    ensures length { OnOk result (length grounds.new.items ≡ length grounds.old.items + 1) }
    ensures begun { (team : List Factor) → known.now ≡ open_views team
        → slice_get team (length grounds.old.items) ≡ Some factor.now → AreBegun team grounds.old.items
        → OnOk result (AreBegun team grounds.new.items) }
    ensures refused { (team : List Factor) → known.now ≡ open_views team
        → slice_get team (length grounds.old.items) ≡ Some factor.now → AreBegun team grounds.old.items
        → IfErr result (IsFirstRefusal team) }
{
    let me = agent_at(grounds.len());
    let made = ground(alloc, me, factor, known)?;
    keep(grounds, made)?;
    Ok(())
}

/// The grounded factors of a team whose agents show this together, or the first refusal.
fn ground_all(
    alloc: Global,
    factors: &[CheckedFactor],
    known: &OpenView,
) -> Result<Vec<Ground>, GroundRefusal>
    requires agents { length factors.now ≤ 16 }
    requires shown { known.now ≡ open_views factors.now }
    ensures length { IfOk result (λ grounds. length grounds.items ≡ length factors.now) }
    ensures begun { IfOk result (λ grounds. AreBegun factors.now grounds.items) }
    ensures refused { 1 ≤ length factors.now → IfErr result (IsFirstRefusal factors.now) }
{
    let mut grounds = Vec::new(alloc);
    for factor in factors {
        add_ground(alloc, &mut grounds, factor, known)?;
    }
    Ok(grounds)
}

/// What each agent shows after grounding.
fn closed_views(alloc: Global, grounds: &[Ground]) -> Result<Vec<View>, OutOfMemory>
    requires { All KeepsLimits grounds.now }
    ensures { IfOk result (λ views. views.items ≡ map closed_view_of grounds.now) }
{
    let mut views = Vec::with_capacity(alloc, grounds.len())?;
    for ground in grounds {
        views.push(closed_view(alloc, ground)?)?;
    }
    Ok(views)
}

/// Adds the bytes of what each of some agents shows, before grounding and after it.
fn add_bytes(
    alloc: Global,
    out: &mut Views,
    before: &[OpenView],
    after: &[View],
) -> Result<(), OutOfMemory>
    ensures { OnOk result (out.new ≡ out.old ++ zip2 view_text before.now after.now) }
{
    match before {
        [] => Ok(()),
        [shown, others @ ..] => match after {
            [] => Ok(()),
            [view, left @ ..] => {
                out.push(view_bytes(alloc, shown, view)?)?;
                add_bytes(alloc, out, others, left)
            }
        },
    }
}

/// The tasks of a team whose agents show this, in these bytes.
fn tasks_shown(
    alloc: Global,
    init: FactTexts,
    views: Vec<View>,
    grounds: Vec<Ground>,
    bytes: Views,
) -> Result<Tasks, OutOfMemory>
    requires agents { length grounds.items ≤ 16 }
    requires ready { All (IsReady (length grounds.items)) grounds.items }
    requires views { views.items ≡ map closed_view_of grounds.items }
    ensures tasks { IfOk result (λ t. t.tasks
        ≡ map (task_of (record { init = init; views = map closed_view_of grounds.items })) grounds.items) }
    ensures steps { IfOk result (λ t. t.steps ≡ map (λ g. g.steps) grounds.items) }
    ensures views { IfOk result (λ t. t.views ≡ bytes) }
{
    let shown = views.as_slice();
    let table = table_of(alloc, shown)?;
    let texts = table.as_slice();
    let names = NameTable::of(alloc, texts)?;
    let common = make_common(alloc, texts, &names, init.as_slice(), shown)?;
    drop(views);
    tasks_of(alloc, &names, &common, grounds, bytes)
}

/// The tasks of a team that shows this before grounding.
fn split(
    alloc: Global,
    before: Vec<OpenView>,
    init: FactTexts,
    grounds: Vec<Ground>,
) -> Result<Tasks, OutOfMemory>
    requires agents { length grounds.items ≤ 16 }
    requires ready { All (IsReady (length grounds.items)) grounds.items }
    ensures tasks { IfOk result (λ t. t.tasks
        ≡ map (task_of (record { init = init; views = map closed_view_of grounds.items })) grounds.items) }
    ensures steps { IfOk result (λ t. t.steps ≡ map (λ g. g.steps) grounds.items) }
    ensures views { IfOk result (λ t. t.views
        ≡ zip2 view_text before.items (map closed_view_of grounds.items)) }
{
    let views = closed_views(alloc, grounds.as_slice())?;
    let mut bytes = List::new(alloc);
    add_bytes(alloc, &mut bytes, before.as_slice(), views.as_slice())?;
    drop(before);
    tasks_shown(alloc, init, views, grounds, bytes)
}

/// The tasks of a team, one for each agent, with what its actions stand for and the bytes of what it shows. The factors
/// are grounded in the order of the agents, and the first refusal is answered.
#[tactic(auto, using(crate::proofs::FirstAgents::no_memory))]
pub fn tasks(alloc: Global, factors: &[CheckedFactor]) -> Result<Tasks, GroundRefusal>
    requires from_1 { 1 ≤ length factors.now }
    requires to_16 { length factors.now ≤ 16 }
    ensures tasks { IfOk result (AreTasksOf factors.now) }
    ensures within { OnOk result ((place : ℕ) (factor : Factor) → slice_get factors.now place ≡ Some factor
        → IsWithin (known_at factors.now place factor)) }
    ensures refused { IfErr result (IsFirstRefusal factors.now) }
{
    let before = make_open_views(alloc, factors)?;
    let known = join(alloc, before.as_slice())?;
    let grounds = ground_all(alloc, factors, &known)?;
    Ok(split(alloc, before, known.init, grounds)?)
}
