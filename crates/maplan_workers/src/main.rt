//! Teams over files of the data, served by workers, some of whose agents are held up at gates. Behind what a trial shows stand
//! its words, and its status, what came of its gate, and the first line of the output, or of the error stream. What must be
//! printed follows from the costs of the plans, worked out by hand, and from the number of workers: where there are fewer of
//! them than agents that have to meet, these cannot.
#![tactic(auto)]

mod calls;
mod gates;
mod meeting;
mod overtaking;
mod trials;

use std::alloc::AllocGlobal;
use std::io;
use trials::{TRIALS, show_trial, show_without_words};

fn main(rt: HostRuntime) -> io::Result<()> {
    for trial in &TRIALS {
        show_trial(&rt, rt.alloc(), trial)?;
    }
    show_without_words(&rt, rt.alloc())
}
