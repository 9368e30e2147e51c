//! Verdicts on small teams, worked out by hand.

use crate::Verdict;
use crate::verdict_rule::verdict_of;
use mp_messages::Findings;
use mp_sets::Agent;
use std::test::Fail;

/// Findings without states under way.
fn found(number: u64, least: Option<u64>, goal: Option<u64>, spent: bool) -> Findings {
    Findings {
        number,
        least,
        under_way: None,
        goal,
        spent,
    }
}

/// The same with a state under way.
fn counted(mine: Findings, f: u64) -> Findings {
    Findings {
        under_way: Some(f),
        ..mine
    }
}

#[test]
fn verdicts_of_two(rt: HostRuntime) -> Result<(), Fail> {
    let one = Agent::new(1).ok_or("agent 1")?;
    let two = Agent::new(2).ok_or("agent 2")?;
    let none = found(1, None, None, false);
    let open_3 = found(1, Some(3), None, false);
    let goal_4 = found(1, None, Some(4), false);
    let goal_5_open_4 = found(1, Some(4), Some(5), false);
    let spent_3 = found(1, Some(3), None, true);
    let spent_7 = found(1, Some(7), None, true);
    let table = [
        (none, none, Verdict::NoPlan),
        (none, open_3, Verdict::Continue),
        (none, counted(none, 3), Verdict::Continue),
        (goal_4, none, Verdict::Proved(one, 4)),
        (goal_4, goal_4, Verdict::Proved(one, 4)),
        (goal_5_open_4, goal_4, Verdict::Proved(two, 4)),
        (goal_4, open_3, Verdict::Continue),
        (goal_4, counted(none, 3), Verdict::Continue),
        (goal_4, counted(none, 4), Verdict::Proved(one, 4)),
        (open_3, spent_3, Verdict::Spent(two)),
        (spent_3, spent_3, Verdict::Spent(one)),
        (open_3, spent_7, Verdict::Continue),
        (goal_4, spent_3, Verdict::Spent(two)),
        (goal_4, spent_7, Verdict::Proved(one, 4)),
    ];
    for (first, second, verdict) in table {
        assert_eq!(rt; verdict_of(&[first, second]), verdict);
    }
    Ok(())
}
