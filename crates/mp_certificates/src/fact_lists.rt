//! Lists of facts between brackets, read from the front of a text into memory that is used again.

ghost use Rattle.std.specs.Prelude.{◌≡◌, ◌+◌, ◌++◌, ◌∷◌, [], ◌<◌, ◌≤◌, IfSome, OnOk, length};
ghost use Rattle.std.specs.Option.{option_map};
ghost use Rattle.mp_audit.specs.Fits.{publics_of as publics_of_tasks};
ghost use Rattle.mp_certificates.specs.Reading.{Gives, all_lists_at, bracket_at, fact_at, facts_from, facts_within as facts_within_at, list_at, lists_at, more_at, with_list, with_lists};

use crate::numbers::{behind, number};
use crate::unread::Unread;
use mp_audit::FlatLists;
use mp_list::OutOfMemory;
use mp_task::Task;

/// Whether a blank stands here, behind which another number follows, or the bracket behind the last one.
#[tactic(auto, unfolding(crate::specs::Reading::more_at))]
fn more(text: &[u8]) -> Option<(bool, &[u8])>
    ensures { option_map (λ x. (x.0, x.1.now)) result ≡ more_at text.now }
{
    match text {
        [b' ', rest @ ..] => Some((true, rest)),
        [b']', rest @ ..] => Some((false, rest)),
        _ => None,
    }
}

/// A fact of so many, from the least number on, whether another one follows, and what stands behind.
#[tactic(auto, unfolding(crate::specs::Reading::fact_at))]
fn fact(size: u32, least: u32, text: &[u8]) -> Option<((u32, bool), &[u8])>
    ensures value { option_map (λ x. ((x.0.0, x.0.1), x.1.now)) result ≡ fact_at size least text.now }
    ensures from { IfSome result (λ x. least ≤ x.0.0) }
    ensures below { IfSome result (λ x. x.0.0 < size) }
{
    let (number, rest) = number(u64::from(least), u64::from(size), text)?;
    let (more, rest) = more(rest)?;
    Some(((number as u32, more), rest))
}

/// Appends a number.
fn push_number(numbers: &mut Vec<u32>, number: u32) -> Result<(), OutOfMemory>
    ensures { OnOk result (numbers.new.items ≡ numbers.old.items ++ number ∷ []) }
{
    numbers.push(number)?;
    Ok(())
}

/// Reads facts of so many that rise, at least one of them, into an empty list, and gives what stands behind the bracket that
/// follows them.
fn facts<'a>(size: u32, text: &'a [u8], numbers: &mut Vec<u32>) -> Result<&'a [u8], Unread>
    requires { numbers.old.items ≡ [] }
    ensures { Gives (λ rest. (numbers.new.items, rest.now)) result (facts_from size size 0 text.now) }
{
    let mut least = 0;
    let mut rest = text;
    for _ in 0..size {
        let Some(((number, more), after)) = fact(size, least, rest) else {
            return Err(Unread::OtherForm);
        };
        push_number(numbers, number)?;
        if !more {
            return Ok(after);
        }
        least = number + 1;
        rest = after;
    }
    Err(Unread::OtherForm)
}

/// Reads what stands behind the first bracket of a list, the last one or facts, into an empty list, and gives what follows.
#[tactic(auto, unfolding(crate::specs::Reading::facts_within))]
fn facts_within<'a>(size: u32, text: &'a [u8], numbers: &mut Vec<u32>) -> Result<&'a [u8], Unread>
    requires { numbers.old.items ≡ [] }
    ensures { Gives (λ rest. (numbers.new.items, rest.now)) result (facts_within_at size text.now) }
{
    match behind(text, b']') {
        Some(rest) => Ok(rest),
        None => facts(size, text, numbers),
    }
}

/// What stands behind a blank and the first bracket of a list.
fn behind_bracket(text: &[u8]) -> Option<&[u8]>
    ensures { option_map (λ x. x.now) result ≡ bracket_at text.now }
{
    behind(behind(text, b' ')?, b'[')
}

/// Reads a list of facts of so many behind a blank in place of what is in `numbers`, and gives what follows it.
#[tactic(auto, unfolding(crate::specs::Reading::list_at))]
fn list<'a>(size: u32, text: &'a [u8], numbers: &mut Vec<u32>) -> Result<&'a [u8], Unread>
    ensures { Gives (λ rest. (numbers.new.items, rest.now)) result (list_at size text.now) }
{
    numbers.clear();
    match behind_bracket(text) {
        Some(rest) => facts_within(size, rest, numbers),
        None => Err(Unread::OtherForm),
    }
}

/// Reads a list of facts of so many behind a blank, appends it to others, and gives what follows it.
fn push_list<'a>(
    size: u32,
    text: &'a [u8],
    numbers: &mut Vec<u32>,
    lists: &mut FlatLists,
) -> Result<&'a [u8], Unread>
    ensures { Gives (λ rest. (lists.new, rest.now)) result
        (with_list lists.old (list_at size text.now)) }
{
    let rest = list(size, text, numbers)?;
    lists.push(numbers.as_slice())?;
    Ok(rest)
}

/// Reads the list of private facts of a task's agent, appends it to others, and gives what follows it.
fn push_privates_of<'a>(
    task: &Task,
    text: &'a [u8],
    numbers: &mut Vec<u32>,
    lists: &mut FlatLists,
) -> Result<&'a [u8], Unread>
    ensures { Gives (λ rest. (lists.new, rest.now)) result
        (with_list lists.old (list_at task.now.privates text.now)) }
{
    push_list(task.privates, text, numbers, lists)
}

/// Reads a list of private facts for each task, appends them to others, and gives what follows them.
fn push_privates<'a>(
    tasks: &[Task],
    text: &'a [u8],
    numbers: &mut Vec<u32>,
    lists: &mut FlatLists,
) -> Result<&'a [u8], Unread>
    ensures { Gives (λ rest. (lists.new, rest.now)) result
        (with_lists lists.old (lists_at tasks.now text.now)) }
{
    let mut rest = text;
    for task in tasks {
        match push_privates_of(task, rest, numbers, lists) {
            Ok(after) => rest = after,
            Err(unread) => return Err(unread),
        }
    }
    Ok(rest)
}

/// How many public facts a team has.
fn publics_of(tasks: &[Task]) -> u32
    ensures { result ≡ publics_of_tasks tasks.now }
{
    match tasks {
        [first, ..] => first.publics,
        [] => 0,
    }
}

/// Reads the lists of an entry in place of those in `lists`: its public facts, and behind them the private facts of each
/// task's agent. Gives what follows them.
pub(crate) fn entry_lists<'a>(
    tasks: &[Task],
    text: &'a [u8],
    numbers: &mut Vec<u32>,
    lists: &mut FlatLists,
) -> Result<&'a [u8], Unread>
    ensures lists { Gives (λ rest. (lists.new, rest.now)) result (all_lists_at tasks.now text.now) }
    ensures counted { OnOk result (length lists.new ≡ length tasks.now + 1) }
{
    lists.clear();
    let rest = push_list(publics_of(tasks), text, numbers, lists)?;
    push_privates(tasks, rest, numbers, lists)
}
