//! Makes the calls that the files of `data` write down, and prints what they answer. What must be printed was worked out
//! by hand, or by hand with plain lists in place of sets.
//!
//! The file `files` names the files that are run, one in each line. A file has blocks with an empty line between each two.
//! The first word of a block's first line says what it is about, and each of its other lines is a call: a word, and what is
//! passed, in parts with a `/` between each two. A word in front of a number only says what the number is, and is passed
//! over. A line that begins with `#` is a remark, and so is a block that begins with one. Each line is printed as it stands.
//! Behind a call stands what it answers, in a line that begins with two spaces, each value as `Debug` writes it. One that
//! can't be made answers nothing or `not read`.
//!
//! Calls without a state:
//!
//! - `lists` (`lists.rt`): `compare A / B`, two lists of bytes by order, equality, `PartialOrd` and hash; `sort WORDS`; `ordered WORD /
//!   WORDS` and `hashed WORD / WORDS`, the number of a word in a map; `bool NUMBER`, `u8 NUMBER`, `u32 NUMBER` and `u64 NUMBER`, a copy of
//!   a list that has it twice; `bytes WORD`, a copy that is made in a loop; `lists A / B / C`, a copy of a list of lists; `short NUMBERS`,
//!   a copy of a short list.
//! - `sets` (`sets.rt`), with the multiples of a number below a size as `SIZE STEP`: `two SIZE STEP / STEP` (whether the first set holds
//!   the list of the second and is a subset of it, whether they are equal, twice, and how they compare), `members SIZE STEP` (of a
//!   copy of a copy), `least SIZE STEP / FROM ..`, `change SIZE STEP / DELETES / ADDS`, `hashed SIZE / A / B` and `ordered SIZE / A / B` (what
//!   a map that has 5 at the set A finds at B); `agent NUMBER`, `first`, `tags TAGS / TAGS` (a copy of the first that stays when the
//!   second come behind, and how it compares to all), `order TAGS / TAGS`.
//! - `runs` (`runs.rt`): `take STEPS`, where each step is `up` or `down` for a count from 0 to 2: how many are taken, and the count.
//! - `texts` (`texts.rt`), in which `\n` stands for a line feed: `read TEXT`, why it is refused as a tree, and the same for `bytes HEX`,
//!   `nested DEPTH` and `comment LENGTH`; `tree TEXT`, the place of its list and those of the members, with a word or a number of members; `schedule TEXT`, of two agents: how many
//!   events it has and the last one, or why it is refused; `name TEXT`, a name, its length, whether its copy is equal, and how it
//!   compares to one that has a byte more.
//! - `names` (`names.rt`): `number NAME PLACE / NAMES`, the number of a name in a table, whether it is there, the name at a place, and how
//!   many there are; `fact OWNER NAME / NAMES` and `step AGENT NAME / NAMES`, copies.
//! - `messages` (`messages.rt`), of two agents with three public facts: `read HEX`, what it spells and the bytes of that, `copy HEX`, a
//!   copy of a state, and `entry HEX`, a copy of an entry of a log with these bytes.
//! - `bindings` (`bindings.rt`): `walk TRIES LIMIT / MEMBERS , MEMBERS / REFUSED , REFUSED`, what it answers and the bindings that it
//!   took.
//! - `outside` (`outside.rt`): `fetch GREATEST FAILING LIMIT / NAME`, of a source of one file `d` with the text `abcde`, and
//!   `put GREATEST FAILING`, of a text of 16 bytes: the answer, what a sink then holds, and the number of faults. `pass` is for the
//!   acts at a gate.
//!
//! Calls one after another:
//!
//! - `store` (`stores.rt`): `offer FACT / G H GOAL` and `copy FACT / G H GOAL`, where the state has one of four facts, or none; `pop`, the
//!   least f and the entry that is closed; `goal`; `best FACT`; `send ENTRY`; `sent NUMBER`; `entry NUMBER`, its cost, its estimate and
//!   the best entry of its state.
//! - `trail` (`trails.rt`): `root`, `own ACTION PARENT` and `from AGENT SENT` put entries into a store; `fits LENGTH`, `walk ENTRY BACK`,
//!   `share LENGTH` (a copy).
//! - `tokens MEMBER` (`tokens.rt`), sets of one number below 4, of which that is the first: `meet MEMBER`, its index, as it is found
//!   then, and the members of the set of that index; `use MEMBER`, its token, and the index that this has; `token NUMBER`.
//! - `snapshot ME AGENTS` (`snapshots.rt`): `start / FINDINGS`, `marker FROM NUMBER / FINDINGS`, `seen FROM F`, `report FROM / FINDINGS`,
//!   `shown`. Findings are `NUMBER / LEAST / UNDER WAY / GOAL / SPENT`.
//! - `task ME / FLAGS` (`estimates.rt`) with the lines of a task (`tasks.rt`): `public`, whether the first action of a copy is, and
//!   `blind`, `hmax`, `cut` and `pdb`, each the value of the start, twice. `wide` is the same with eight facts of each kind.
//! - `blind ME / FLAGS / LIMIT` and `hmax ME / FLAGS / LIMIT` (`searches.rt`), the search of an agent with that heuristic, with the lines of
//!   a task: `expand`, `take FROM HEX`, the state of a message, `entry NUMBER`, `least`, `counts` (how many entries there are and were
//!   expanded, whether those are all that may be, and whether one may be), `token NUMBER`.
//!
//! Tags are pairs of a token and 1 or 0, for whether private goals hold.
#![tactic(auto)]

mod bindings;
mod blocks;
mod calls;
mod estimates;
mod lines;
mod lists;
mod messages;
mod names;
mod outside;
mod runs;
mod searches;
mod sets;
mod snapshots;
mod states;
mod stores;
mod tasks;
mod texts;
mod tokens;
mod trails;

use anyhow::ensure;
use blocks::run_blocks;
use calls::Out;
use std::fs;
use std::rt::Files;

/// What the calls of all named files print.
fn run_files<R: Files + AllocGlobal>(rt: &R, names: &str, out: &mut Out) -> anyhow::Result<()> {
    for name in names.lines() {
        let text = fs::read_to_string(rt, name)?;
        run_blocks(rt.alloc(), text.as_str(), out)?;
    }
    Ok(())
}

fn main(rt: HostRuntime) -> anyhow::Result<()> {
    let names = fs::read_to_string(&rt, "files")?;
    let mut out = Out {
        text: String::new(rt.alloc()),
        failed: false,
    };
    run_files(&rt, names.as_str(), &mut out)?;
    ensure!(!out.failed, "out of memory");
    rt.print(out.text.as_str())?;
    Ok(())
}
