//! The problem of one agent of a delivery.

ghost use Rattle.std.specs.Prelude.{◌≡◌, ◌++◌, ◌≤◌, decimal, IfOk, OnOk};
ghost use Rattle.mp_maker.specs.Problem.{near_cost as near_cost_of, far_cost as far_cost_of, first_box as first_box_of, last_box as last_box_of, name_lines, objects_line, init_line, roads_line, costs_line, goal_lines, problem as problem_of};

use crate::write::{digits, place, push_all};
use mp_list::{List, OutOfMemory};
use mp_sexp::Name;
use std::alloc::Global;

/// What it costs an agent to drive between its yard and the place where it takes the box.
fn near_cost(number: u32, agent: u16) -> u32
    requires number { number ≤ 999999 }
    requires agent { agent ≤ 8 }
    ensures { result ≡ near_cost_of number agent }
{
    1 + (number * u32::from(agent) + 3) % 5
}

/// What it costs an agent to drive between the two places on its way with the box.
fn far_cost(number: u32, agent: u16) -> u32
    requires number { number ≤ 999999 }
    requires agent { agent ≤ 8 }
    ensures { result ≡ far_cost_of number agent }
{
    1 + (number + 2 * u32::from(agent)) % 7
}

/// Appends the lines that name the problem and its domain.
#[tactic(auto, unfolding(crate::specs::Problem::name_lines))]
fn push_name<'a>(text: &mut List<u8>, agent: &'a [u8]) -> Result<(), OutOfMemory>
    ensures { OnOk result (text.new ≡ text.old ++ name_lines agent.now) }
{
    push_all(
        text,
        &[
            b"(define (problem delivery-",
            agent,
            b")\n (:domain delivery)\n",
        ],
    )
}

/// Appends the line of the objects, of which the agent's yard is its own.
#[tactic(auto, unfolding(crate::specs::Problem::objects_line))]
fn push_objects<'a>(text: &mut List<u8>, x: &'a [u8], y: &'a [u8]) -> Result<(), OutOfMemory>
    ensures { OnOk result (text.new ≡ text.old ++ objects_line x.now y.now) }
{
    push_all(
        text,
        &[
            b" (:objects box - parcel ",
            x,
            b" ",
            y,
            b" - place (:private yard - place))\n",
        ],
    )
}

/// Appends the line of the agent's start, and of the box where it begins here.
#[tactic(auto, unfolding(crate::specs::Problem::init_line))]
fn push_init<'a>(text: &mut List<u8>, first: &'a [u8]) -> Result<(), OutOfMemory>
    ensures { OnOk result (text.new ≡ text.old ++ init_line first.now) }
{
    push_all(text, &[b" (:init (pos yard)", first, b"\n"])
}

/// Appends the line of the roads, which lead both ways.
#[tactic(auto, unfolding(crate::specs::Problem::roads_line))]
fn push_roads<'a>(text: &mut List<u8>, x: &'a [u8], y: &'a [u8]) -> Result<(), OutOfMemory>
    ensures { OnOk result (text.new ≡ text.old ++ roads_line x.now y.now) }
{
    push_all(
        text,
        &[
            b"  (road yard ",
            x,
            b") (road ",
            x,
            b" yard) (road ",
            x,
            b" ",
            y,
            b") (road ",
            y,
            b" ",
            x,
            b")\n",
        ],
    )
}

/// Appends the line of what the roads cost.
#[tactic(auto, unfolding(crate::specs::Problem::costs_line))]
fn push_costs<'a>(
    text: &mut List<u8>,
    x: &'a [u8],
    y: &'a [u8],
    near: &'a [u8],
    far: &'a [u8],
) -> Result<(), OutOfMemory>
    ensures { OnOk result (text.new ≡ text.old ++ costs_line x.now y.now near.now far.now) }
{
    push_all(
        text,
        &[
            b"  (= (dist yard ",
            x,
            b") ",
            near,
            b") (= (dist ",
            x,
            b" yard) ",
            near,
            b") (= (dist ",
            x,
            b" ",
            y,
            b") ",
            far,
            b") (= (dist ",
            y,
            b" ",
            x,
            b") ",
            far,
            b"))\n",
        ],
    )
}

/// Appends the lines of the goal and of the metric.
#[tactic(auto, unfolding(crate::specs::Problem::goal_lines))]
fn push_goal<'a>(text: &mut List<u8>, last: &'a [u8]) -> Result<(), OutOfMemory>
    ensures { OnOk result (text.new ≡ text.old ++ goal_lines last.now) }
{
    push_all(
        text,
        &[
            b" (:goal (and",
            last,
            b"))\n (:metric minimize (total-cost)))\n",
        ],
    )
}

/// Where the box is at first: the first agent's problem says it.
#[tactic(auto, unfolding(crate::specs::Problem::first_box))]
fn first_box(agent: u16) -> &'static [u8]
    ensures { result.now ≡ first_box_of agent }
{
    if agent == 1 { b" (at box h0)" } else { b"" }
}

/// Where the box is wanted: the last agent's problem says it.
#[tactic(auto, unfolding(crate::specs::Problem::last_box))]
fn last_box(alloc: Global, size: u16, agent: u16, y: &[u8]) -> Result<List<u8>, OutOfMemory>
    ensures { IfOk result (λ text. text ≡ last_box_of size agent y.now) }
{
    let mut text = List::new(alloc);
    if agent == size {
        push_all(&mut text, &[b" (at box ", y, b")"])?;
    }
    Ok(text)
}

/// Appends the lines that name an agent's problem, and that of its objects.
fn push_front<'a>(
    alloc: Global,
    text: &mut List<u8>,
    agent: u16,
    x: &'a [u8],
    y: &'a [u8],
) -> Result<(), OutOfMemory>
    ensures { OnOk result (text.new ≡ text.old ++ (name_lines (decimal agent) ++ objects_line x.now y.now)) }
{
    let number = digits(alloc, u32::from(agent))?;
    push_name(text, number.as_slice())?;
    push_objects(text, x, y)?;
    Ok(())
}

/// Appends the lines of an agent's start, of the roads and of what they cost.
fn push_start<'a>(
    alloc: Global,
    text: &mut List<u8>,
    number: u32,
    agent: u16,
    x: &'a [u8],
    y: &'a [u8],
) -> Result<(), OutOfMemory>
    requires number { number ≤ 999999 }
    requires agent { agent ≤ 8 }
    ensures { OnOk result (text.new ≡ text.old ++ (init_line (first_box_of agent) ++ (roads_line x.now y.now
        ++ costs_line x.now y.now (decimal (near_cost_of number agent)) (decimal (far_cost_of number agent))))) }
{
    let near = digits(alloc, near_cost(number, agent))?;
    let far = digits(alloc, far_cost(number, agent))?;
    push_init(text, first_box(agent))?;
    push_roads(text, x, y)?;
    push_costs(text, x, y, near.as_slice(), far.as_slice())?;
    Ok(())
}

/// Appends the lines of the goal of an agent of a team of so many, and of the metric.
fn push_end(
    alloc: Global,
    text: &mut List<u8>,
    size: u16,
    agent: u16,
    y: &[u8],
) -> Result<(), OutOfMemory>
    ensures { OnOk result (text.new ≡ text.old ++ goal_lines (last_box_of size agent y.now)) }
{
    let last = last_box(alloc, size, agent, y)?;
    push_goal(text, last.as_slice())?;
    Ok(())
}

/// The text of the problem of an agent of a team of so many.
#[tactic(auto, unfolding(crate::specs::Problem::problem))]
fn problem_text(alloc: Global, size: u16, number: u32, agent: u16) -> Result<List<u8>, OutOfMemory>
    requires number { number ≤ 999999 }
    requires some { 1 ≤ agent }
    requires agent { agent ≤ 8 }
    ensures { IfOk result (λ text. text ≡ problem_of size number agent) }
{
    let x = place(alloc, agent - 1)?;
    let y = place(alloc, agent)?;
    let mut text = List::new(alloc);
    push_front(alloc, &mut text, agent, x.as_slice(), y.as_slice())?;
    push_start(alloc, &mut text, number, agent, x.as_slice(), y.as_slice())?;
    push_end(alloc, &mut text, size, agent, y.as_slice())?;
    Ok(text)
}

/// The problem of an agent of a team of so many.
pub(crate) fn problem_file(
    alloc: Global,
    size: u16,
    number: u32,
    agent: u16,
) -> Result<Name, OutOfMemory>
    requires number { number ≤ 999999 }
    requires some { 1 ≤ agent }
    requires agent { agent ≤ 8 }
    ensures { IfOk result (λ text. text ≡ problem_of size number agent) }
{
    let text = problem_text(alloc, size, number, agent)?;
    Name::folded(alloc, text.as_slice())
}
