//! The tasks of a team from its grounded factors and from what the tasks have in common.

ghost use Rattle.std.specs.Prelude.{◌≡◌, ◌++◌, ◌∷◌, ◌≤◌, [], true, not, length, map, All, IfOk, OnOk};
ghost use Rattle.std.specs.Cmp.Lexicographic.{slice_cmp};
ghost use Rattle.std.specs.List.Sorted.{IsStrictlySortedBy};
ghost use Rattle.std.specs.Ordering.{nat_cmp};
ghost use Rattle.mp_task.specs.Limits.{ActFits, IsWithinLimits};
ghost use Rattle.mp_split.specs.Common.{ActRises, AreOf, ArePlaces, IsOfTeam, act_at, of_others, task_from, task_with};
ghost use Rattle.mp_split.specs.TaskOf.{act_in};

use crate::common::Common;
use crate::numbers::{numbers_at, numbers_of};
use crate::team::{Tasks, Views};
use mp_grounder::Ground;
use mp_lifting::FactTexts;
use mp_list::{Copied, List, OutOfMemory};
use mp_sets::{Agent, FactList};
use mp_sexp::NameTable;
use mp_task::{Act, ActList, Far, FarList, Task};
use std::alloc::Global;
use std::mem;

/// An own action, with the numbers at its places for its public facts.
fn act_of(alloc: Global, numbers: &FactList, privates: u32, act: Act) -> Result<Act, OutOfMemory>
    requires { ActFits (length numbers.now) privates act }
    ensures { IfOk result (λ made. made ≡ act_at numbers.now act) }
{
    let mut made = act;
    made.pre_pub = numbers_at(alloc, numbers, &made.pre_pub)?;
    made.add_pub = numbers_at(alloc, numbers, &made.add_pub)?;
    made.del_pub = numbers_at(alloc, numbers, &made.del_pub)?;
    Ok(made)
}

/// Whether the number at each place is that place.
fn are_places(numbers: &[u32]) -> bool
    ensures { result ≡ true → ArePlaces numbers.now }
{
    let mut place = 0;
    for number in numbers {
        if *number as usize != place {
            return false;
        }
        place += 1;
    }
    true
}

/// Own actions, with the numbers at their places for their public facts.
fn renumbered(
    alloc: Global,
    numbers: &FactList,
    privates: u32,
    acts: ActList,
) -> Result<ActList, OutOfMemory>
    requires { All (ActFits (length numbers.now) privates) acts }
    ensures { IfOk result (λ made. made ≡ map (act_at numbers.now) acts) }
{
    let mut made = List::with_capacity(alloc, acts.len())?;
    for act in acts.into_items() {
        made.push(act_of(alloc, numbers, privates, act)?)?;
    }
    Ok(made)
}

/// Own actions of an agent that has these public facts, with the team's numbers for them: as they are, where each number is
/// its place, as for a team whose agents all have the same public facts.
fn own_acts(
    alloc: Global,
    table: &NameTable<'_>,
    publics: &FactTexts,
    privates: u32,
    acts: ActList,
) -> Result<ActList, OutOfMemory>
    requires few { length table.now ≤ 1048560 }
    requires rise { IsStrictlySortedBy (slice_cmp nat_cmp) table.now }
    requires publics { AreOf table.now publics.now }
    requires rises { All ActRises acts }
    requires fits { All (ActFits (length publics.now) privates) acts }
    ensures { IfOk result (λ made. made ≡ map (act_in table.now publics.now) acts) }
{
    let numbers = numbers_of(alloc, table, publics.as_slice())?;
    if are_places(numbers.as_slice()) {
        return Ok(acts);
    }
    renumbered(alloc, &numbers, privates, acts)
}

/// Adds a copy of a part, where it is another agent's.
fn add_other(out: &mut FarList, me: Agent, part: &Far) -> Result<(), OutOfMemory>
    ensures { OnOk result (out.new ≡ out.old ++ of_others me (part.now ∷ [])) }
{
    if part.by != me {
        out.push(part.copy()?)?;
    }
    Ok(())
}

/// The parts of other agents' actions.
fn others_of(alloc: Global, me: Agent, parts: &[Far]) -> Result<FarList, OutOfMemory>
    ensures { IfOk result (λ out. out ≡ of_others me parts.now) }
{
    let mut out = List::new(alloc);
    for part in parts {
        add_other(&mut out, me, part)?;
    }
    Ok(out)
}

/// The task with these own actions and parts of the others' actions.
fn task_from_parts(
    publics: u32,
    common: &Common,
    ground: &Ground,
    acts: ActList,
    far: FarList,
) -> Result<Task, OutOfMemory>
    requires agents { length common.now.met ≤ 16 }
    requires within { IsWithinLimits (task_from publics common.now ground.now acts far) }
    ensures { IfOk result (λ task. task ≡ task_from publics common.now ground.now acts far) }
{
    Ok(Task {
        me: ground.me,
        agents: common.met.len() as u16,
        publics,
        privates: ground.privates,
        start_pub: common.start.copy()?,
        start_priv: ground.start.copy()?,
        goal_pub: common.goals.copy()?,
        goal_priv: ground.goal_priv.copy()?,
        acts,
        far,
        met: common.met.copy()?,
    })
}

/// The task of an agent with these own actions, where these are the public facts of the team. The actions of the grounded
/// factor itself are not looked at.
fn make_task(
    alloc: Global,
    table: &NameTable<'_>,
    common: &Common,
    ground: &Ground,
    acts: ActList,
) -> Result<Task, OutOfMemory>
    requires { IsOfTeam table.now common.now (record ground.now { acts = acts }) }
    ensures { IfOk result (λ task. task ≡ task_with table.now common.now (record ground.now { acts = acts })) }
{
    let acts = own_acts(alloc, table, &ground.publics, ground.privates, acts)?;
    let far = others_of(alloc, ground.me, common.parts.as_slice())?;
    task_from_parts(table.len() as u32, common, ground, acts, far)
}

/// Adds the task of an agent, and what its own actions stand for.
fn add_task(
    alloc: Global,
    table: &NameTable<'_>,
    common: &Common,
    mut ground: Ground,
    out: &mut Tasks,
) -> Result<(), OutOfMemory>
    requires { IsOfTeam table.now common.now ground }
    ensures task { OnOk result (out.new.tasks ≡ out.old.tasks ++ task_with table.now common.now ground ∷ []) }
    ensures steps { OnOk result (out.new.steps ≡ out.old.steps ++ ground.steps ∷ []) }
    ensures views { OnOk result (out.new.views ≡ out.old.views) }
{
    let acts = mem::replace(&mut ground.acts, List::new(alloc));
    out.tasks
        .push(make_task(alloc, table, common, &ground, acts)?)?;
    out.steps.push(ground.into_steps())?;
    Ok(())
}

/// The tasks of a team that shows this.
pub(crate) fn tasks_of(
    alloc: Global,
    table: &NameTable<'_>,
    common: &Common,
    grounds: Vec<Ground>,
    views: Views,
) -> Result<Tasks, OutOfMemory>
    requires { All (IsOfTeam table.now common.now) grounds.items }
    ensures tasks { IfOk result (λ t. t.tasks ≡ map (task_with table.now common.now) grounds.items) }
    ensures steps { IfOk result (λ t. t.steps ≡ map (λ g. g.steps) grounds.items) }
    ensures views { IfOk result (λ t. t.views ≡ views) }
{
    let mut out = Tasks {
        tasks: List::with_capacity(alloc, grounds.len())?,
        steps: List::with_capacity(alloc, grounds.len())?,
        views,
    };
    for ground in grounds {
        add_task(alloc, table, common, ground, &mut out)?;
    }
    Ok(out)
}
