//! Reads short texts as the files of an agent, and prints what they say and what is wrong with them. What must be printed
//! was worked out by hand.
//!
//! Each line of the file `cases` is one of
//!
//! - `domain TEXT` and `problem TEXT`: from here on this is the text of that file, where `\n` stands for a line feed;
//! - `fault domain` and `fault problem`, which ask for the first fault of shape of that file;
//! - `says domain` and `says problem`, which ask what that file says, or why it is refused;
//! - `check`, which asks what is wrong with the names of the two files together;
//! - `under SUB SUP`, which asks whether a type of the checked files is another or lies under it;
//! - `members TYPE ..`, which asks for the numbers of the objects that are of one of these types, or of
//!   all objects where no type stands there;
//! - a remark, which begins with `#`, or an empty line.
//!
//! Each line is printed as it stands. Behind a question stands its answer, in lines that begin with two spaces. A fault has
//! its line, column and kind; that of a refused file also has the word that is not supported, and one of names its file and
//! its word. What a file says is printed item by item, in words of PDDL: a private item says so, a type or condition is
//! written as in a file, and the name of an object in an atom has a `'` in front. A line that can't be read, or a question
//! on texts that are no such files, is followed by `not read`.
#![tactic(auto)]

mod answers;
mod cases;
mod faults;
mod lines;
mod said;
mod texts;
mod words;

use cases::answer_cases;
use std::fs;
use std::io::Print;

fn main(rt: HostRuntime) -> anyhow::Result<()> {
    let cases = fs::read_to_string(&rt, "cases")?;
    let mut out = Vec::new(rt.alloc());
    answer_cases(rt.alloc(), cases.as_str(), &mut out)?;
    rt.write_all(out.as_slice())?;
    Ok(())
}
