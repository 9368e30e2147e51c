//! Words, and the gates that their agents pass.

use crate::calls::{Answer, PIECE, call_with, first_line};
use crate::meeting::Meeting;
use crate::overtaking::Overtaking;
use mp_outside::{MemSink, NoGate};
use mp_top::without_words;
use std::alloc::Global;
use std::io::{self, Print};
use std::rt::Files;
use std::sync::Wait;
use std::thread::Threads;

/// How many turns of `Backoff` an agent waits for others before it gives up.
const TURNS: u64 = 10_000_000;

/// The same where no other can come.
const FEW_TURNS: u64 = 200;

/// What an agent is held up for.
#[derive(Clone, Copy)]
enum Held {
    /// Nothing: each passes.
    Free,
    /// Agent 1, for another one that passes.
    UntilOvertaken(u64),
    /// So many agents, for each other, before their first events.
    UntilAllBegin(u64, u64),
    /// So many agents, for each other, at their first signings, each with the turn of its post.
    UntilAllSign(u64, u64),
}

/// A call: what it shows, its words, and what holds its agents up.
#[derive(Clone, Copy)]
pub(crate) struct Trial {
    name: &'static str,
    words: &'static str,
    held: Held,
}

/// In a hand-over agent 1 makes true what agent 2 needs; of three carriers each hands over to the next; of two agents each
/// tidies by itself. One worker cannot serve an agent while it holds up another one, so that this one gives up.
pub(crate) const TRIALS: [Trial; 10] = [
    Trial {
        name: "agent 2 gets on while agent 1 waits",
        words: "solve --workers=2 left-d left-p right-d right-p",
        held: Held::UntilOvertaken(TURNS),
    },
    Trial {
        name: "not by one worker",
        words: "solve --workers=1 left-d left-p right-d right-p",
        held: Held::UntilOvertaken(FEW_TURNS),
    },
    Trial {
        name: "each of three agents has a worker of its own",
        words: "solve truck-d town1-p sky-d sky-p truck-d town2-p",
        held: Held::UntilAllBegin(3, TURNS),
    },
    Trial {
        name: "not with two workers",
        words: "solve --workers=2 truck-d town1-p sky-d sky-p truck-d town2-p",
        held: Held::UntilAllBegin(3, FEW_TURNS),
    },
    Trial {
        name: "each post has a turn of its own",
        words: "solve --workers=2 left-d left-p right-d right-p",
        held: Held::UntilAllSign(2, TURNS),
    },
    Trial {
        name: "not by one worker",
        words: "solve --workers=1 left-d left-p right-d right-p",
        held: Held::UntilAllSign(2, FEW_TURNS),
    },
    Trial {
        name: "as many workers as agents",
        words: "solve --h blind tidy-d tidy-p tidy-d tidy-p",
        held: Held::Free,
    },
    Trial {
        name: "one worker",
        words: "solve --workers=1 --h blind tidy-d tidy-p tidy-d tidy-p",
        held: Held::Free,
    },
    Trial {
        name: "more workers than agents",
        words: "solve --workers=9 --h blind tidy-d tidy-p tidy-d tidy-p",
        held: Held::Free,
    },
    Trial {
        name: "an empty file of the system",
        words: "solve --one /dev/null /dev/null",
        held: Held::Free,
    },
];

/// What a call left behind, and whether its agents got past the gate that held them up, where there is one.
#[derive(Drop)]
struct Outcome {
    answer: Answer,
    passed: Option<bool>,
}

/// A call whose agents all pass.
fn free<R: Files + Threads + Wait + Sync>(
    rt: &R,
    alloc: Global,
    words: &str,
) -> io::Result<Outcome> {
    let answer = call_with(rt, alloc, words, &NoGate)?;
    Ok(Outcome {
        answer,
        passed: None,
    })
}

/// A call in which agent 1 waits until another one gets on.
fn overtaken<R: Files + Threads + Wait + Sync>(
    rt: &R,
    alloc: Global,
    words: &str,
    gate: Overtaking,
) -> io::Result<Outcome> {
    let answer = call_with(rt, alloc, words, &gate)?;
    let passed = Some(gate.was_passed());
    Ok(Outcome { answer, passed })
}

/// A call in which agents wait for each other.
fn met<R: Files + Threads + Wait + Sync>(
    rt: &R,
    alloc: Global,
    words: &str,
    gate: Meeting,
) -> io::Result<Outcome> {
    let answer = call_with(rt, alloc, words, &gate)?;
    let passed = Some(gate.was_passed());
    Ok(Outcome { answer, passed })
}

/// What comes of a trial.
fn outcome_of<R: Files + Threads + Wait + Sync>(
    rt: &R,
    alloc: Global,
    trial: &Trial,
) -> io::Result<Outcome> {
    match trial.held {
        Held::Free => free(rt, alloc, trial.words),
        Held::UntilOvertaken(turns) => overtaken(rt, alloc, trial.words, Overtaking::new(turns)),
        Held::UntilAllBegin(agents, turns) => {
            met(rt, alloc, trial.words, Meeting::new(agents, false, turns))
        }
        Held::UntilAllSign(agents, turns) => {
            met(rt, alloc, trial.words, Meeting::new(agents, true, turns))
        }
    }
}

/// What is told of a gate.
fn told_of_gate(passed: Option<bool>) -> &'static str {
    match passed {
        None => "no gate",
        Some(true) => "all got past the gate",
        Some(false) => "an agent gave up at the gate",
    }
}

/// Prints a status, a line and what is told of a gate.
fn print_answer<R: Print>(rt: &R, code: u8, line: &[u8], gate: &str) -> io::Result<()> {
    print!(rt; "  status {code}, {gate}: ")?;
    rt.write_all(line)?;
    rt.write_all(b"\n")
}

/// Runs a trial, and prints what it shows, its words and what comes of it.
pub(crate) fn show_trial<R: Files + Threads + Wait + Sync + Print>(
    rt: &R,
    alloc: Global,
    trial: &Trial,
) -> io::Result<()> {
    let Trial { name, words, .. } = *trial;
    println!(rt; "{name}")?;
    println!(rt; "  {words}")?;
    let outcome = outcome_of(rt, alloc, trial)?;
    let gate = told_of_gate(outcome.passed);
    print_answer(
        rt,
        outcome.answer.code,
        outcome.answer.line.as_slice(),
        gate,
    )
}

/// Prints what is answered where no memory was left for the words.
pub(crate) fn show_without_words<R: Print>(rt: &R, alloc: Global) -> io::Result<()> {
    let mut err = MemSink::new(alloc, PIECE, Vec::new(alloc));
    let status = without_words(&mut err);
    println!(rt; "words that took all memory")?;
    print_answer(
        rt,
        status.code(),
        first_line(err.bytes()),
        told_of_gate(None),
    )
}
