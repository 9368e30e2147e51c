//! One line of a plan.

ghost use Rattle.std.specs.Prelude.{◌≡◌, ◌<◌, ◌≤◌, ◌∷◌, [], IfOk, IfSome, MatchOption, length};
ghost use Rattle.std.specs.Option.{option_map};
ghost use Rattle.mp_plans.specs.Lines.{counts_behind, fields_between as fields_between_of, is_agent_line as is_agent_line_of, is_count_line as is_count_line_of, is_line_end as is_line_end_of, line_size as line_size_of, number_line as number_line_of, step_between as step_between_of, step_fields as step_fields_of, step_of as step_of_names, whole_lines};

use crate::field::{before, behind, number, numeral};
use crate::name::{first_word, name_of, names_in};
use mp_joint::PlanStep;
use mp_list::OutOfMemory;
use mp_sets::Agent;
use std::alloc::Global;

/// A step of a plan, and its time.
#[derive(Drop)]
pub(crate) struct TimedStep {
    pub(crate) time: u64,
    pub(crate) step: PlanStep,
}

/// How many bytes the first line has, with its line feed, where it has one.
fn line_size(text: &[u8]) -> usize
    ensures value { result ≡ line_size_of text.now }
    ensures within { result ≤ length text.now }
{
    for (before, byte) in text.iter().enumerate() {
        if *byte == b'\n' {
            return before + 1;
        }
    }
    text.len()
}

/// The first line of a text, with its line feed, where it has one, and what follows it: none where the text is empty.
pub(crate) fn first_line(text: &[u8]) -> Option<(&[u8], &[u8])>
    ensures lines { MatchOption result (text.now ≡ [])
        (λ x. whole_lines text.now ≡ x.0.now ∷ whole_lines x.1.now) }
    ensures shorter { IfSome result (λ x. length x.1.now < length text.now) }
{
    if text.is_empty() {
        return None;
    }
    Some(text.split_at(line_size(text)))
}

/// Whether a line ends here.
fn is_line_end(text: &[u8]) -> bool
    ensures { result ≡ is_line_end_of text.now }
{
    text == b"\n".as_slice()
}

/// The number of a line that is a label and a number.
#[tactic(auto, unfolding(crate::specs::Lines::number_line))]
pub(crate) fn number_line(label: &[u8], line: &[u8]) -> Option<u64>
    ensures { result ≡ number_line_of label.now line.now }
{
    let rest = behind(label, line)?;
    let (number, rest) = number(rest)?;
    if !is_line_end(rest) {
        return None;
    }
    Some(number)
}

/// Whether this is the line of an agent.
#[tactic(auto, unfolding(crate::specs::Lines::is_agent_line))]
pub(crate) fn is_agent_line(agent: u16, line: &[u8]) -> bool
    ensures { result ≡ is_agent_line_of agent line.now }
{
    match number_line(b"agent ", line) {
        Some(number) => number == u64::from(agent),
        None => false,
    }
}

/// What follows the counts of events, messages and bytes.
#[tactic(auto, unfolding(crate::specs::Lines::counts_behind))]
fn behind_counts(line: &[u8]) -> Option<&[u8]>
    ensures { option_map (λ x. x.now) result ≡ counts_behind line.now }
{
    let rest = behind(b"events ", line)?;
    let (_, rest) = numeral(rest)?;
    let rest = behind(b" messages ", rest)?;
    let (_, rest) = numeral(rest)?;
    let rest = behind(b" bytes ", rest)?;
    let (_, rest) = numeral(rest)?;
    Some(rest)
}

/// Whether this is the line that counts events, messages and their bytes.
#[tactic(auto, unfolding(crate::specs::Lines::is_count_line))]
pub(crate) fn is_count_line(line: &[u8]) -> bool
    ensures { result ≡ is_count_line_of line.now }
{
    match behind_counts(line) {
        Some(rest) => is_line_end(rest),
        None => false,
    }
}

/// The time of a step's line, and its names.
#[tactic(auto, unfolding(crate::specs::Lines::step_fields))]
fn step_fields(line: &[u8]) -> Option<(u64, &[u8])>
    ensures { option_map (λ x. (x.0, x.1.now)) result ≡ step_fields_of line.now }
{
    let (time, rest) = number(line)?;
    let rest = behind(b": (", rest)?;
    let names = before(b")\n", rest)?;
    Some((time, names))
}

/// The step of an agent whose action and arguments have these names.
#[tactic(auto, unfolding(crate::specs::Lines::step_of))]
fn step_of(alloc: Global, agent: Agent, names: &[u8]) -> Result<Option<PlanStep>, OutOfMemory>
    ensures { IfOk result (λ step. step ≡ step_of_names agent names.now) }
{
    let (word, rest) = first_word(names);
    let Some(action) = name_of(alloc, word)? else {
        return Ok(None);
    };
    match names_in(alloc, rest)? {
        Some(args) => Ok(Some(PlanStep {
            agent,
            action,
            args,
        })),
        None => Ok(None),
    }
}

/// The time and the names of a step's line whose time is behind the last one and within the plan.
#[tactic(auto, unfolding(crate::specs::Lines::fields_between))]
fn fields_between(last: u64, most: u64, line: &[u8]) -> Option<(u64, &[u8])>
    ensures { option_map (λ x. (x.0, x.1.now)) result ≡ fields_between_of last most line.now }
{
    let (time, names) = step_fields(line)?;
    if time <= last || time > most {
        return None;
    }
    Some((time, names))
}

/// The step whose line this is, of this agent, behind the last time and within the plan.
#[tactic(auto, unfolding(crate::specs::Lines::step_between))]
pub(crate) fn step_between(
    alloc: Global,
    agent: Agent,
    last: u64,
    most: u64,
    line: &[u8],
) -> Result<Option<TimedStep>, OutOfMemory>
    ensures { IfOk result (λ timed. timed ≡ step_between_of agent last most line.now) }
{
    let Some((time, names)) = fields_between(last, most, line) else {
        return Ok(None);
    };
    match step_of(alloc, agent, names)? {
        Some(step) => Ok(Some(TimedStep { time, step })),
        None => Ok(None),
    }
}
