//! Agents that take messages which are made at random, and what they answer beside the rules on bad messages.

use crate::answers::name;
use crate::machines::{row, row_machine};
use crate::made::made_message;
use crate::random::Random;
use crate::rules::{Seen, is_near_the_limit};
use crate::spelled::{Said, Team, read_message};
use crate::teams::TaskRow;
use mp_list::OutOfMemory;
use mp_machine::{BadKind, Local, Machine, Outs, StepRefusal};
use mp_sets::Agent;
use mp_task::Blind;
use std::alloc::Global;

/// The most walks of an agent from its start.
const WALKS: u64 = 1_000_000;

/// The most steps of a walk.
const STEPS: u64 = 60;

/// The kinds of bad messages, in their order.
const KINDS: [BadKind; 9] = [
    BadKind::NotASpelling,
    BadKind::UnknownToken,
    BadKind::WrongByte,
    BadKind::StrangeMarker,
    BadKind::StrangeReport,
    BadKind::StrangePick,
    BadKind::StrangeTrace,
    BadKind::StrangeLength,
    BadKind::StrangeDone,
];

/// What was found.
#[derive(Drop)]
struct Tally {
    /// How many messages were given to the agent.
    messages: u64,
    /// How many of them it took as good ones.
    good: u64,
    /// How many answers differ from those of the rules.
    differ: u64,
    /// How many answers of steps behind a bad message are others than that message's.
    changed: u64,
    /// How often the agent ended.
    ended: u64,
    /// The kinds of bad messages that came.
    kinds: Vec<BadKind>,
}

/// One more.
fn count(number: &mut u64) {
    *number = number.saturating_add(1);
}

impl Tally {
    /// Takes down the answer to a message beside that of the rules.
    fn add(
        &mut self,
        expected: Option<StepRefusal>,
        answer: &Result<Outs, StepRefusal>,
    ) -> Result<(), OutOfMemory> {
        count(&mut self.messages);
        let refusal = match answer {
            Ok(_) => None,
            Err(refusal) => Some(*refusal),
        };
        if refusal != expected {
            count(&mut self.differ);
        }
        match refusal {
            None => {
                count(&mut self.good);
                Ok(())
            }
            Some(StepRefusal::Bad(kind)) => self.add_kind(kind),
            Some(_) => Ok(()),
        }
    }

    /// Takes down a kind of bad messages.
    fn add_kind(&mut self, kind: BadKind) -> Result<(), OutOfMemory> {
        if !self.kinds.as_slice().contains(&kind) {
            self.kinds.push(kind)?;
        }
        Ok(())
    }
}

/// How many agents the team of a row has.
fn agents_of(row: &TaskRow) -> u16 {
    let mut agents: u16 = 0;
    for _ in row.met {
        agents = agents.saturating_add(1);
    }
    agents
}

/// The team of a row, as its agent knows it.
fn team_of(row: &TaskRow) -> Team {
    Team {
        me: row.me,
        agents: agents_of(row),
        publics: row.publics,
    }
}

/// Whether the private goals of a row's agent hold at the start.
fn met_of(row: &TaskRow) -> bool {
    for (before, met) in row.met.iter().enumerate() {
        if before as u64 + 1 == u64::from(row.me) {
            return *met;
        }
    }
    false
}

/// Takes an event that needs no message, where it may happen: whether the agent goes on.
fn act(
    machine: &mut Machine<Blind>,
    seen: &mut Seen,
    event: Local,
    tally: &mut Tally,
) -> Result<bool, OutOfMemory> {
    if !machine.can(&event) {
        return Ok(true);
    }
    match machine.step(event, None) {
        Ok(outs) => {
            if !seen.send_all(None, outs.as_slice())? {
                count(&mut tally.differ);
            }
            Ok(!seen.ended)
        }
        Err(_) => {
            count(&mut tally.differ);
            Ok(false)
        }
    }
}

/// Takes one more step behind a bad message.
fn step_behind(
    machine: &mut Machine<Blind>,
    event: Local,
    bytes: &[u8],
    refusal: StepRefusal,
    tally: &mut Tally,
) {
    match machine.step(event, Some(bytes)) {
        Ok(_) => count(&mut tally.changed),
        Err(other) => {
            if other != refusal {
                count(&mut tally.changed);
            }
        }
    }
}

/// Takes steps of each kind behind a bad message.
fn steps_behind(
    machine: &mut Machine<Blind>,
    from: Agent,
    bytes: &[u8],
    refusal: StepRefusal,
    tally: &mut Tally,
) {
    step_behind(machine, Local::Expand, bytes, refusal, tally);
    step_behind(machine, Local::Start, bytes, refusal, tally);
    step_behind(
        machine,
        Local::Take(from),
        [2, 0, 0, 0, 0, 0, 0, 0, 1].as_slice(),
        refusal,
        tally,
    );
    step_behind(machine, Local::Take(from), bytes, refusal, tally);
}

/// What the rules answer to a message.
fn expected(seen: &Seen, from: u16, message: Option<Said>) -> Option<StepRefusal> {
    if !seen.may_take(from) {
        return Some(StepRefusal::NotNow);
    }
    match seen.kind_of(from, message) {
        Some(kind) => Some(StepRefusal::Bad(kind)),
        None => None,
    }
}

/// Goes on behind a message: whether the agent does.
fn behind(
    machine: &mut Machine<Blind>,
    seen: &mut Seen,
    from: Agent,
    bytes: &[u8],
    message: Option<Said>,
    answer: Result<Outs, StepRefusal>,
    tally: &mut Tally,
) -> Result<bool, OutOfMemory> {
    match answer {
        Ok(outs) => {
            if let Some(message) = message {
                seen.take(from.number(), message)?;
            }
            if !seen.send_all(message, outs.as_slice())? {
                count(&mut tally.differ);
            }
            Ok(!seen.ended)
        }
        Err(StepRefusal::NotNow) => Ok(true),
        Err(refusal) => {
            steps_behind(machine, from, bytes, refusal, tally);
            Ok(false)
        }
    }
}

/// Gives a message to the agent: whether it goes on.
fn give(
    machine: &mut Machine<Blind>,
    seen: &mut Seen,
    from: Agent,
    bytes: &[u8],
    tally: &mut Tally,
) -> Result<bool, OutOfMemory> {
    let message = read_message(seen.team, bytes);
    if is_near_the_limit(message) {
        return Ok(true);
    }
    let expected = expected(seen, from.number(), message);
    let answer = machine.step(Local::Take(from), Some(bytes));
    tally.add(expected, &answer)?;
    behind(machine, seen, from, bytes, message, answer, tally)
}

/// The number of another agent of the team, or seldom of any agent.
fn sender(team: Team, random: &mut Random) -> u16 {
    if random.is_one_in(16) {
        return random.below(5) as u16;
    }
    let others = u64::from(team.agents).saturating_sub(1).max(1);
    let number = (random.below(others) as u16).saturating_add(1);
    if number < team.me {
        return number;
    }
    number.saturating_add(1)
}

/// Gives a message that is made at random to the agent: whether it goes on.
fn give_made(
    alloc: Global,
    machine: &mut Machine<Blind>,
    seen: &mut Seen,
    random: &mut Random,
    tally: &mut Tally,
) -> Result<bool, OutOfMemory> {
    let Some(from) = Agent::new(sender(seen.team, random)) else {
        return Ok(true);
    };
    let bytes = made_message(alloc, seen, from.number(), random)?;
    give(machine, seen, from, bytes.as_slice(), tally)
}

/// Takes steps at random until a message is a bad one or the agent has ended.
fn walk(
    alloc: Global,
    machine: &mut Machine<Blind>,
    seen: &mut Seen,
    random: &mut Random,
    tally: &mut Tally,
) -> Result<(), OutOfMemory> {
    for _ in 0..STEPS {
        let goes_on = match random.below(4) {
            0 => act(machine, seen, Local::Start, tally)?,
            1 => give_made(alloc, machine, seen, random, tally)?,
            _ => act(machine, seen, Local::Expand, tally)?,
        };
        if !goes_on {
            break;
        }
    }
    if seen.ended {
        count(&mut tally.ended);
        let take = give_made(alloc, machine, seen, random, tally)?;
        if !take {
            count(&mut tally.differ);
        }
    }
    Ok(())
}

/// Walks once from the start: whether the row is one of a small task.
fn walk_once(
    alloc: Global,
    row: &TaskRow,
    random: &mut Random,
    tally: &mut Tally,
) -> Result<bool, OutOfMemory> {
    let Some(made) = row_machine(alloc, row, 10)? else {
        return Ok(false);
    };
    let mut machine = made;
    let mut seen = Seen::new(alloc, team_of(row), met_of(row))?;
    walk(alloc, &mut machine, &mut seen, random, tally)?;
    Ok(true)
}

/// Walks until the agent was given so many messages.
fn walk_often(
    alloc: Global,
    row: &TaskRow,
    messages: u64,
    tally: &mut Tally,
) -> Result<(), OutOfMemory> {
    let mut random = Random::new(u64::from(row.me));
    for _ in 0..WALKS {
        if tally.messages >= messages || !walk_once(alloc, row, &mut random, tally)? {
            return Ok(());
        }
    }
    Ok(())
}

/// Adds whether a number is reached.
fn add_whether(out: &mut String, what: &str, holds: bool) -> Result<(), OutOfMemory> {
    let holds = if holds { "yes" } else { "no" };
    write!(out, "  {what} {holds}\n")?;
    Ok(())
}

/// Adds what was found.
fn add_tally(out: &mut String, messages: u64, tally: &Tally) -> Result<(), OutOfMemory> {
    let differ = tally.differ;
    let changed = tally.changed;
    write!(out, "  {differ} answers differ\n")?;
    write!(out, "  {changed} answers behind a bad message differ\n")?;
    add_whether(out, "all messages were given:", tally.messages >= messages)?;
    add_whether(out, "a thousand were good:", tally.good >= 1_000)?;
    add_whether(out, "ten times it ended:", tally.ended >= 10)?;
    for kind in &KINDS {
        add_whether(out, name(*kind), tally.kinds.as_slice().contains(kind))?;
    }
    Ok(())
}

/// Gives so many messages that are made at random to the agent of a name, and adds what was found.
pub(crate) fn add_walks(
    alloc: Global,
    name: &str,
    messages: u64,
    out: &mut String,
) -> Result<(), OutOfMemory> {
    let Some(row) = row(name) else {
        out.push_str("  not read\n")?;
        return Ok(());
    };
    let mut tally = Tally {
        messages: 0,
        good: 0,
        differ: 0,
        changed: 0,
        ended: 0,
        kinds: Vec::new(alloc),
    };
    walk_often(alloc, row, messages, &mut tally)?;
    add_tally(out, messages, &tally)
}
