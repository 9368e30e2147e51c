//! Tries the program on devices that fail, on damaged files and on large ones. What must be printed was worked out from the
//! formats, or by a program written apart from this one.
//!
//! The file `files` names the files of the folder that are held in memory, one in each line. Each line of the file `cases` is
//! one of
//!
//! - `made NAME COUNT PART COUNT PART ..`: from here on a file of this name is held, which has each part so many times;
//! - `run WORDS ..`, which calls the program with these words;
//! - `keep NAME`: from here on the output of the last such call is held as a file of this name;
//! - `same NAME`, which asks whether that output is what the file of this name has;
//! - `devices SOURCE OUT ERR WORDS ..`, which calls the program with a source that gives, and an output and an error stream
//!   that take, at most so many bytes at a call; then again with each call of the source failing in turn, then each call of
//!   the output, and then each call of the error stream, until no call fails;
//! - `cut NAME WORDS ..`, which calls the program with each beginning of this file in its place, from the empty one on;
//! - `changed BYTE NAME WORDS ..`, which calls it with each byte of this file changed into this one in turn;
//! - a remark, which begins with `#`, or an empty line.
//!
//! Each line is printed as it stands. Behind a call stand its status, and its output and its error stream with the number of
//! their bytes; of more than 1,000 bytes the last 200 are printed. Behind that of `devices` stand, for the calls that fail, by
//! their numbers from 1, what the program then answers, and the last number is that of a call that there is not. Behind `cut`
//! stand numbers of bytes that are left, behind `changed` the places of the byte from 0. Answers that are described alike stand
//! together. An output or error stream is `nothing`, `all` of what it is where nothing is done to the devices and files,
//! `what came before` the call that fails, or so many bytes of all and what comes after these, where `\n` is a line feed.
#![tactic(auto)]

mod alike;
mod answers;
mod calls;
mod cases;
mod damages;
mod devices;
mod texts;

use cases::run_cases;
use mp_outside::NamedText;
use std::fs;
use std::io::Print;
use std::rt::Files;
use texts::add_text;

/// Holds the files of these names.
fn hold_files<R: Files + AllocGlobal>(
    rt: &R,
    names: &str,
    texts: &mut Vec<NamedText>,
) -> anyhow::Result<()> {
    for name in names.lines() {
        let text = fs::read_to_string(rt, name)?;
        add_text(rt.alloc(), texts, name, text.as_bytes())?;
    }
    Ok(())
}

fn main(rt: HostRuntime) -> anyhow::Result<()> {
    let names = fs::read_to_string(&rt, "files")?;
    let cases = fs::read_to_string(&rt, "cases")?;
    let mut texts = Vec::new(rt.alloc());
    hold_files(&rt, names.as_str(), &mut texts)?;
    let mut out = Vec::new(rt.alloc());
    run_cases(rt.alloc(), cases.as_str(), &mut texts, &mut out)?;
    rt.write_all(out.as_slice())?;
    Ok(())
}
