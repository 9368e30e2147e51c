//! Runs scripts of single agents, without their teams: the messages that an agent takes are written in the script, and
//! what each step answers is printed. What must be printed was worked out by hand.
//!
//! The file `scripts` names the files that are run, one in each line. A file has blocks with an empty line between each
//! two. A block that begins with a line `agent NAME LIMIT` is a script: it makes the agent of that name (`teams.rt` has
//! their tasks) at its start, with the blind heuristic, to expand at most so many entries. Each of its other lines is one of
//!
//! - `expand` and `start`, an event;
//! - `take J HEX`, the receipt of a message of agent J with these bytes, in lower-case hexadecimal; HEX may be missing;
//! - `show`, which asks what the agent tells of itself;
//! - a remark, which begins with `#`.
//!
//! A block that begins with a line `random NAME COUNT` gives the agent of that name so many messages that are made at random, or
//! damaged, from walks of events and good messages from its start on. Each answer is compared with that of the rules on bad
//! messages, which `rules.rt` reads from the table of their kinds over what the agent was seen to take and to send, and `spelled.rt`
//! from the table of spellings; behind a bad message four more steps have to answer the same. What is printed is how many
//! answers differ, and which kinds of bad messages came.
//!
//! Other blocks are remarks. Each line is printed as it stands. Behind an event stand, each in a line that begins with two
//! spaces, the messages that go out as `to J HEX`, or the refusal: `not now`, `bad` with the kind of the bad message, or
//! `out of memory`. Behind `show` stand the events that may happen (with the receipts from agents 1 to 4), how the agent
//! has ended, the cost that it has proved, its share of the plan as times and own action numbers, how many entries it has
//! expanded, and how many it had when it last noted what it has found. A line that can't be read is followed by `not read`.
#![tactic(auto)]

mod answers;
mod lines;
mod machines;
mod made;
mod random;
mod rules;
mod scripts;
mod shown;
mod spelled;
mod tasks;
mod teams;
mod walks;

use scripts::run_scripts;
use std::fs;
use std::rt::Files;

/// What the scripts of all named files print.
fn run_files<R: Files + AllocGlobal>(rt: &R, names: &str, out: &mut String) -> anyhow::Result<()> {
    for name in names.lines() {
        let text = fs::read_to_string(rt, name)?;
        run_scripts(rt.alloc(), text.as_str(), out)?;
    }
    Ok(())
}

fn main(rt: HostRuntime) -> anyhow::Result<()> {
    let names = fs::read_to_string(&rt, "scripts")?;
    let mut out = String::new(rt.alloc());
    run_files(&rt, names.as_str(), &mut out)?;
    rt.print(out.as_str())?;
    Ok(())
}
