//! What the tasks of a team have in common: the public facts with their numbers, and the public parts of actions.

ghost use Rattle.std.specs.Prelude.{◌≡◌, ◌++◌, ◌+◌, ◌-◌, ◌≤◌, [], not, length, map, take, drop, All, IfOk, OnOk};
ghost use Rattle.std.specs.Cmp.Lexicographic.{slice_cmp};
ghost use Rattle.std.specs.List.{enumerate_from, flat_map};
ghost use Rattle.std.specs.List.Sorted.{IsStrictlySortedBy};
ghost use Rattle.std.specs.Ordering.{nat_cmp};
ghost use Rattle.mp_joint.specs.Fact.{is_listed};
ghost use Rattle.mp_typing.specs.Places.{numbers_where};
ghost use Rattle.mp_views.specs.Sorted.{sorted_once as once_sorted};
ghost use Rattle.mp_split.specs.TaskOf.{far_in, is_complement, is_true};
ghost use Rattle.mp_split.specs.Common.{PartFits, ShowsFit, parts_in, common_of};

use crate::numbers::{add_place, numbers_of};
use mp_lifting::FactTexts;
use mp_list::{Copied, List, OutOfMemory};
use mp_sets::{Agent, FactList};
use mp_sexp::{Name, NameTable};
use mp_task::{Far, FarList, Flags};
use mp_views::{Part, View, sorted_once};
use std::alloc::Global;

/// What the tasks of a team have in common beside the public facts.
#[derive(Drop)]
pub(crate) struct Common {
    /// The public facts and complements that are true at the start.
    pub start: FactList,
    /// Those that are goals of an agent.
    pub goals: FactList,
    /// For each agent, whether its private goals hold at the start.
    pub met: Flags,
    /// The public parts of the public actions of all agents, by rising agent.
    pub parts: FarList,
}

/// Adds copies of texts.
fn add_copies(out: &mut Vec<Name>, texts: &[Name]) -> Result<(), OutOfMemory>
    ensures { OnOk result (out.new.items ≡ out.old.items ++ texts.now) }
{
    for text in texts {
        out.push(text.copy()?)?;
    }
    Ok(())
}

/// The public facts and complements of all agents, in the order of their bytes, each once.
pub(crate) fn table_of(alloc: Global, views: &[View]) -> Result<FactTexts, OutOfMemory>
    ensures { IfOk result (λ table. table ≡ once_sorted (flat_map (λ v. v.facts) views.now)) }
{
    let mut facts = Vec::new(alloc);
    for view in views {
        add_copies(&mut facts, view.facts.as_slice())?;
    }
    sorted_once(alloc, facts)
}

/// The first six bytes of a text.
fn front(text: &[u8]) -> &[u8]
    ensures { result.now ≡ take 6 text.now }
{
    if text.len() < 6 {
        return text;
    }
    &text[..6]
}

/// Whether a text is that of a complement.
fn is_complement_text(text: &[u8]) -> bool
    ensures { result ≡ is_complement text.now }
{
    front(text) == b"(not (".as_slice()
}

/// The text of the fact whose complement this is.
fn complement_text(text: &[u8]) -> &[u8]
    ensures { result.now ≡ take (length text.now - 6) (drop 5 text.now) }
{
    if text.len() < 6 {
        return &text[..0];
    }
    &text[5..text.len() - 1]
}

/// Whether no name of a table is spelled by these bytes.
fn is_no_name(names: &NameTable<'_>, text: &[u8]) -> bool
    ensures { result ≡ not (is_listed text.now names.now) }
{
    names.find(text).is_none()
}

/// Whether a fact or complement is true at the start.
fn is_true_text(init: &NameTable<'_>, text: &Name) -> bool
    ensures { result ≡ is_true init.now text.now }
{
    let bytes = text.as_slice();
    if is_complement_text(bytes) {
        is_no_name(init, complement_text(bytes))
    } else {
        init.contains(text)
    }
}

/// The goals that agents show, one agent after another.
fn all_goals<'a>(alloc: Global, views: &'a [View]) -> Result<NameTable<'a>, OutOfMemory>
    ensures { IfOk result (λ names. names ≡ flat_map (λ v. v.goals) views.now) }
{
    let mut names = NameTable::new(alloc);
    for view in views {
        names.push_all(view.goals.as_slice())?;
    }
    Ok(names)
}

/// The facts and complements that are true at the start, and those that are goals.
fn start_and_goals(
    alloc: Global,
    init: &NameTable<'_>,
    goals: &NameTable<'_>,
    table: &[Name],
) -> Result<(FactList, FactList), OutOfMemory>
    requires { length table.now ≤ 1048560 }
    ensures start { IfOk result (λ r. r.0 ≡ numbers_where 0 (is_true init.now) table.now) }
    ensures goals { IfOk result (λ r. r.1 ≡ numbers_where 0 (λ text. is_listed text goals.now) table.now) }
{
    let mut start = FactList::new(alloc);
    let mut wanted = FactList::new(alloc);
    let mut place = 0;
    for text in table {
        add_place(&mut start, place, is_true_text(init, text))?;
        add_place(&mut wanted, place, goals.contains(text))?;
        place += 1;
    }
    Ok((start, wanted))
}

/// For each agent, whether its private goals hold at the start.
fn flags_of(alloc: Global, views: &[View]) -> Result<Flags, OutOfMemory>
    ensures { IfOk result (λ met. met ≡ map (λ v. v.met) views.now) }
{
    let mut met = List::with_capacity(alloc, views.len())?;
    for view in views {
        met.push(view.met)?;
    }
    Ok(met)
}

/// The public part of an agent's action, with the team's numbers.
fn far_of(alloc: Global, table: &NameTable<'_>, by: Agent, part: &Part) -> Result<Far, OutOfMemory>
    requires few { length table.now ≤ 1048560 }
    requires rise { IsStrictlySortedBy (slice_cmp nat_cmp) table.now }
    requires part { PartFits table.now part.now }
    ensures { IfOk result (λ far. far ≡ far_in table.now by part.now) }
{
    let pre = numbers_of(alloc, table, part.pre.as_slice())?;
    let add = numbers_of(alloc, table, part.add.as_slice())?;
    let del = numbers_of(alloc, table, part.del.as_slice())?;
    Ok(Far {
        by,
        pre,
        add,
        del,
        cost: part.cost,
    })
}

/// Adds the public parts of an agent's actions.
fn add_parts(
    alloc: Global,
    out: &mut FarList,
    table: &NameTable<'_>,
    by: Agent,
    parts: &[Part],
) -> Result<(), OutOfMemory>
    requires few { length table.now ≤ 1048560 }
    requires rise { IsStrictlySortedBy (slice_cmp nat_cmp) table.now }
    requires parts { All (PartFits table.now) parts.now }
    ensures { OnOk result (out.new ≡ out.old ++ map (far_in table.now by) parts.now) }
{
    for part in parts {
        out.push(far_of(alloc, table, by, part)?)?;
    }
    Ok(())
}

/// Adds the public parts of the actions of agents, of which the first has this number.
fn add_all_parts(
    alloc: Global,
    out: &mut FarList,
    table: &NameTable<'_>,
    number: u16,
    views: &[View],
) -> Result<(), OutOfMemory>
    requires from_1 { 1 ≤ number }
    requires to_16 { number + length views.now ≤ 17 }
    requires few { length table.now ≤ 1048560 }
    requires rise { IsStrictlySortedBy (slice_cmp nat_cmp) table.now }
    requires parts { All (λ v. All (PartFits table.now) v.acts) views.now }
    ensures { OnOk result (out.new
        ≡ out.old ++ flat_map (parts_in table.now) (enumerate_from number views.now)) }
{
    match views {
        [] => Ok(()),
        [view, others @ ..] => {
            let Some(by) = Agent::new(number) else {
                return Ok(());
            };
            add_parts(alloc, out, table, by, view.acts.as_slice())?;
            add_all_parts(alloc, out, table, number + 1, others)
        }
    }
}

/// What the tasks of a team have in common, from what its agents show and the table of their public facts.
pub(crate) fn make_common(
    alloc: Global,
    table: &[Name],
    names: &NameTable<'_>,
    init: &[Name],
    views: &[View],
) -> Result<Common, OutOfMemory>
    requires names { names.now ≡ table.now }
    requires fit { ShowsFit table.now views.now }
    ensures { IfOk result (λ common. common ≡ common_of table.now init.now views.now) }
{
    let (start, goals) = start_and_goals(
        alloc,
        &NameTable::of(alloc, init)?,
        &all_goals(alloc, views)?,
        table,
    )?;
    let met = flags_of(alloc, views)?;
    let mut parts = List::new(alloc);
    add_all_parts(alloc, &mut parts, names, 1, views)?;
    Ok(Common {
        start,
        goals,
        met,
        parts,
    })
}
