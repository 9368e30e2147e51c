//! The verdict on the findings of all agents.

ghost use Rattle.std.specs.Prelude.{◌≡◌, ◌+◌, ◌≤◌, ◌&&◌, length};
ghost use Rattle.mp_snapshot.specs.Minima.{lesser};
ghost use Rattle.mp_snapshot.specs.VerdictRule.{least_f, least_goal, is_cost, first_from, lowest_agent, proved, unproved, verdict_of};

use crate::verdict::Verdict;
use mp_messages::Findings;
use mp_sets::Agent;

/// The lesser of two costs, of which one that is missing is above every other.
pub fn lesser(a: Option<u64>, b: Option<u64>) -> Option<u64>
    ensures { result ≡ lesser a b }
{
    match (a, b) {
        (None, b) => b,
        (Some(a), None) => Some(a),
        (Some(a), Some(b)) => Some(a.min(b)),
    }
}

/// The least f of open entries and of states under way.
fn least_f(found: &[Findings]) -> Option<u64>
    ensures { result ≡ least_f found.now }
{
    match found {
        [] => None,
        [f, others @ ..] => lesser(lesser(f.least, f.under_way), least_f(others)),
    }
}

/// The least cost of a goal entry.
fn least_goal(found: &[Findings]) -> Option<u64>
    ensures { result ≡ least_goal found.now }
{
    match found {
        [] => None,
        [f, others @ ..] => lesser(f.goal, least_goal(others)),
    }
}

/// The first agent with a goal entry of this cost, where the first of the list has this number.
fn first_with_goal(number: u16, found: &[Findings], cost: u64) -> Option<Agent>
    requires from_1 { 1 ≤ number }
    requires to_16 { number + length found.now ≤ 17 }
    ensures { result ≡ first_from number (λ f. is_cost cost f.goal) found.now }
{
    match found {
        [] => None,
        [f, others @ ..] => {
            if f.goal == Some(cost) {
                Agent::new(number)
            } else {
                first_with_goal(number + 1, others, cost)
            }
        }
    }
}

/// The first agent that has expanded as often as it may and whose least open entry has this f.
fn first_spent(number: u16, found: &[Findings], f: u64) -> Option<Agent>
    requires from_1 { 1 ≤ number }
    requires to_16 { number + length found.now ≤ 17 }
    ensures { result ≡ first_from number (λ x. x.spent && is_cost f x.least) found.now }
{
    match found {
        [] => None,
        [x, others @ ..] => {
            if x.spent && x.least == Some(f) {
                Agent::new(number)
            } else {
                first_spent(number + 1, others, f)
            }
        }
    }
}

/// A goal of the least cost is proved to be cheapest.
fn proved(found: &[Findings], cost: u64) -> Verdict
    requires { length found.now ≤ 16 }
    ensures { result ≡ proved cost (lowest_agent (λ x. is_cost cost x.goal) found.now) }
{
    match first_with_goal(1, found, cost) {
        Some(agent) => Verdict::Proved(agent, cost),
        None => Verdict::Continue,
    }
}

/// No goal is proved, and this is the least f.
fn unproved(found: &[Findings], f: u64) -> Verdict
    requires { length found.now ≤ 16 }
    ensures { result ≡ unproved found.now f }
{
    match first_spent(1, found, f) {
        Some(agent) => Verdict::Spent(agent),
        None => Verdict::Continue,
    }
}

/// The verdict on the findings of all agents, in their order.
pub fn verdict_of(found: &[Findings]) -> Verdict
    requires { length found.now ≤ 16 }
    ensures { result ≡ verdict_of found.now }
{
    match (least_goal(found), least_f(found)) {
        (None, None) => Verdict::NoPlan,
        (None, Some(f)) => unproved(found, f),
        (Some(cost), None) => proved(found, cost),
        (Some(cost), Some(f)) => {
            if cost <= f {
                proved(found, cost)
            } else {
                unproved(found, f)
            }
        }
    }
}
