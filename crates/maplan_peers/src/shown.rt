//! What an agent tells of itself, as lines.

use mp_list::OutOfMemory;
use mp_machine::{Ending, Local, Machine};
use mp_sets::Agent;
use mp_task::Blind;
use mp_trail::Share;

/// Adds the events that may happen.
fn add_events(out: &mut String, machine: &Machine<Blind>) -> Result<(), OutOfMemory> {
    out.push_str("  can")?;
    if machine.can(&Local::Expand) {
        out.push_str(" expand")?;
    }
    if machine.can(&Local::Start) {
        out.push_str(" start")?;
    }
    add_receipts(out, machine)
}

/// Adds the agents of which a message may be taken.
fn add_receipts(out: &mut String, machine: &Machine<Blind>) -> Result<(), OutOfMemory> {
    for number in 1..5 {
        add_receipt(out, machine, number)?;
    }
    out.push_str("\n")?;
    Ok(())
}

/// Adds an agent if a message of it may be taken.
fn add_receipt(out: &mut String, machine: &Machine<Blind>, number: u16) -> Result<(), OutOfMemory> {
    let Some(agent) = Agent::new(number) else {
        return Ok(());
    };
    if machine.can(&Local::Take(agent)) {
        write!(out, " take {number}")?;
    }
    Ok(())
}

/// Adds how the agent has ended.
fn add_ending(out: &mut String, ending: Ending) -> Result<(), OutOfMemory> {
    match ending {
        Ending::Going => out.push_str("  going\n")?,
        Ending::Solved { length } => write!(out, "  solved by {length}\n")?,
        Ending::NoPlan => out.push_str("  no plan\n")?,
        Ending::Spent => out.push_str("  spent\n")?,
    }
    Ok(())
}

/// Adds the cost that the agent has proved.
fn add_cost(out: &mut String, cost: Option<u64>) -> Result<(), OutOfMemory> {
    match cost {
        Some(cost) => write!(out, "  cost {cost}\n")?,
        None => out.push_str("  no cost\n")?,
    }
    Ok(())
}

/// Adds the agent's share of the plan.
fn add_share(out: &mut String, share: &Share) -> Result<(), OutOfMemory> {
    out.push_str("  share")?;
    for timed in share {
        let time = timed.time;
        let action = timed.action;
        write!(out, " {time}:{action}")?;
    }
    out.push_str("\n")?;
    Ok(())
}

/// Adds the counts of the agent's entries.
fn add_counts(out: &mut String, expanded: u64, noted: u64) -> Result<(), OutOfMemory> {
    write!(out, "  expanded {expanded} noted {noted}\n")?;
    Ok(())
}

/// Adds the lines of what an agent tells of itself.
pub(crate) fn add_shown(out: &mut String, machine: &Machine<Blind>) -> Result<(), OutOfMemory> {
    add_events(out, machine)?;
    add_ending(out, machine.ending())?;
    add_cost(out, machine.cost())?;
    add_share(out, machine.share())?;
    add_counts(out, machine.expanded(), machine.noted())
}
