//! Plans that are read from their texts.

ghost use Rattle.std.specs.Prelude.{◌≡◌, ◌+◌, ◌<◌, ◌≤◌, ◌^◌, ◌++◌, [], ℕ, suc, List, Result, Ok, Err, IfErr, IfNone, IfOk, IfSome, OnOk, drop, length};
ghost use Rattle.mp_text.specs.Lines.{Text};
ghost use Rattle.mp_plans.specs.Lines.{whole_lines};
ghost use Rattle.mp_plans.specs.Plan.{Refuses, agents_of, behind_agents, labelled_then, own_steps, plan_in, plan_of, with_steps};
ghost use Rattle.mp_plans.specs.declared.plan.PlanText.{PlanText as PlanTextOf};

use crate::line::{TimedStep, first_line, is_agent_line, is_count_line, number_line, step_between};
use crate::order::in_order;
use mp_joint::JointPlan;
use mp_list::{List, OutOfMemory};
use mp_sets::Agent;
use mp_text::LineRefusal;
use std::alloc::Global;

/// A plan, and the cost that its text states.
#[derive(Drop)]
pub struct PlanText {
    pub cost: u64,
    pub plan: JointPlan,
}

/// Appends the steps of an agent: the lines at the front that are steps of its, at times that rise. Gives the number of
/// the line behind them, and what is left.
fn push_own<'a>(
    alloc: Global,
    agent: Agent,
    most: u64,
    number: u64,
    text: &'a [u8],
    steps: &mut List<TimedStep>,
) -> Result<(u64, &'a [u8]), OutOfMemory>
    requires { number + length text.now < 2 ^ 64 }
    ensures steps { OnOk result (steps.new ≡ steps.old ++ own_steps agent most 0 (whole_lines text.now)) }
    ensures number { IfOk result (λ x. x.0
        ≡ number + length (own_steps agent most 0 (whole_lines text.now))) }
    ensures lines { IfOk result (λ x. whole_lines x.1.now
        ≡ drop (length (own_steps agent most 0 (whole_lines text.now))) (whole_lines text.now)) }
    ensures short { IfOk result (λ x. x.0 + length x.1.now ≤ number + length text.now) }
{
    let mut last = 0;
    let mut next = number;
    let mut rest = text;
    while let Some((line, later)) = first_line(rest) {
        let Some(timed) = step_between(alloc, agent, last, most, line)? else {
            return Ok((next, rest));
        };
        last = timed.time;
        steps.push(timed)?;
        next += 1;
        rest = later;
    }
    Ok((next, rest))
}

/// Appends the steps of an agent, behind its line. Gives the number of the line behind them, and what is left.
fn push_agent<'a>(
    alloc: Global,
    agent: u16,
    most: u64,
    number: u64,
    text: &'a [u8],
    steps: &mut List<TimedStep>,
) -> Result<(u64, &'a [u8]), LineRefusal>
    requires short { number + length text.now < 2 ^ 64 }
    requires agent { 1 ≤ agent }
    requires few { agent ≤ 16 }
    ensures found { (more : ℕ) → IfOk result (λ x. with_steps steps.new
        (agents_of more (agent + 1) most x.0 (whole_lines x.1.now))
        ≡ with_steps steps.old (agents_of (suc more) agent most number (whole_lines text.now))) }
    ensures refused { (more : ℕ) → IfErr result (λ e.
        Refuses e (agents_of (suc more) agent most number (whole_lines text.now))) }
    ensures shorter { IfOk result (λ x. x.0 + length x.1.now ≤ number + length text.now) }
{
    let Some((line, rest)) = first_line(text) else {
        return Err(LineRefusal::Line(number));
    };
    if !is_agent_line(agent, line) {
        return Err(LineRefusal::Line(number));
    }
    let Some(agent) = Agent::new(agent) else {
        unreachable!()
    };
    Ok(push_own(alloc, agent, most, number + 1, rest, steps)?)
}

/// The number of the line that is refused behind the agents.
fn refused_behind(number: u64, text: &[u8]) -> Option<u64>
    requires { number + length text.now < 2 ^ 64 }
    ensures none { IfNone result (behind_agents number (whole_lines text.now) ≡ Ok []) }
    ensures some { IfSome result (λ n. behind_agents number (whole_lines text.now) ≡ Err n) }
{
    let Some((line, rest)) = first_line(text) else {
        return None;
    };
    if !is_count_line(line) {
        return Some(number);
    }
    match first_line(rest) {
        Some(_) => Some(number + 1),
        None => None,
    }
}

/// The steps of all agents, the first of whose lines is the third.
fn steps_in(
    alloc: Global,
    agents: u16,
    most: u64,
    text: &[u8],
) -> Result<List<TimedStep>, LineRefusal>
    requires few { agents ≤ 16 }
    requires short { 3 + length text.now < 2 ^ 64 }
    ensures found { IfOk result (λ steps. agents_of agents 1 most 3 (whole_lines text.now) ≡ Ok steps) }
    ensures refused { IfErr result (λ e. Refuses e (agents_of agents 1 most 3 (whole_lines text.now))) }
{
    let mut steps = List::new(alloc);
    let mut number = 3;
    let mut rest = text;
    for agent in 1..agents + 1 {
        match push_agent(alloc, agent, most, number, rest, &mut steps) {
            Ok((next, left)) => {
                number = next;
                rest = left;
            }
            Err(refusal) => return Err(refusal),
        }
    }
    match refused_behind(number, rest) {
        Some(refused) => Err(LineRefusal::Line(refused)),
        None => Ok(steps),
    }
}

/// The plan of all steps, unless a time is missing or doubled.
fn plan_of_steps(
    alloc: Global,
    cost: u64,
    most: u64,
    steps: List<TimedStep>,
) -> Result<PlanText, LineRefusal>
    ensures found { IfOk result (λ read. plan_of cost most (Ok steps) ≡ Ok read) }
    ensures refused { IfErr result (λ e. Refuses e (plan_of cost most (Ok steps))) }
{
    match in_order(alloc, most, steps)? {
        Some(plan) => Ok(PlanText { cost, plan }),
        None => Err(LineRefusal::Line(2)),
    }
}

/// The plan of all agents' steps, behind the two lines that tell its cost and its length.
fn plan_behind(
    alloc: Global,
    agents: u16,
    cost: u64,
    most: u64,
    text: &[u8],
) -> Result<PlanText, LineRefusal>
    requires few { agents ≤ 16 }
    requires short { 3 + length text.now < 2 ^ 64 }
    ensures found { IfOk result (λ read.
        plan_of cost most (agents_of agents 1 most 3 (whole_lines text.now)) ≡ Ok read) }
    ensures refused { IfErr result (λ e.
        Refuses e (plan_of cost most (agents_of agents 1 most 3 (whole_lines text.now)))) }
{
    match steps_in(alloc, agents, most, text) {
        Ok(steps) => plan_of_steps(alloc, cost, most, steps),
        Err(refusal) => Err(refusal),
    }
}

/// The number of the first line, which is this label and a number, and what follows it.
fn labelled<'a>(label: &[u8], text: &'a [u8]) -> Option<(u64, &'a [u8])>
    ensures none { IfNone result ((number : ℕ) (onward : ℕ → List Text → Result PlanTextOf ℕ)
        → labelled_then label.now number onward (whole_lines text.now) ≡ Err number) }
    ensures some { IfSome result (λ x. (number : ℕ) (onward : ℕ → List Text → Result PlanTextOf ℕ)
        → labelled_then label.now number onward (whole_lines text.now)
        ≡ onward x.0 (whole_lines x.1.now)) }
    ensures shorter { IfSome result (λ x. length x.1.now < length text.now) }
{
    let (line, rest) = first_line(text)?;
    let number = number_line(label, line)?;
    Some((number, rest))
}

/// The plan that a text has for a team of so many agents: what an outcome with a plan is printed as, where the line that
/// counts events, messages and bytes may be missing, and each line ends with a line feed. `Line` comes exactly where a
/// line is not of its form, with the number of the first such line, and with the one behind the last where lines are
/// missing. A step's time has to be from 1 to the plan's length, and behind the last one of its agent. Where all lines
/// are of their form, but a time is missing or stands twice, it is the line that tells the length.
pub fn read_plan(alloc: Global, text: &[u8], agents: u16) -> Result<PlanText, LineRefusal>
    requires { agents ≤ 16 }
    ensures found { IfOk result (λ read. plan_in agents text.now ≡ Ok read) }
    ensures refused { IfErr result (λ e. Refuses e (plan_in agents text.now)) }
{
    let Some((cost, rest)) = labelled(b"cost ", text) else {
        return Err(LineRefusal::Line(1));
    };
    let Some((most, rest)) = labelled(b"length ", rest) else {
        return Err(LineRefusal::Line(2));
    };
    plan_behind(alloc, agents, cost, most, rest)
}
