//! What is told of files and of the team that they are.

use crate::answer::{Answer, made_of, no_command, telling};
use crate::ending::Ending;
use crate::naming::names_in;
use crate::reading::accepted_team;
use mp_grounder::GroundRefusal;
use mp_hint_lines::FileNames;
use mp_list::{List, OutOfMemory};
use mp_outside::Source;
use mp_team_facts::explain_facts;
use mp_team_hints::explain_team;
use mp_team_views::explain_views;
use mp_typing::CheckedFactor;
use mp_united_domain::united_domain;
use mp_united_problem::united_problem;
use std::alloc::Global;

/// What is asked of a team.
#[derive(Clone, Copy, Debug, PartialEq, Eq)]
pub(crate) enum Asked {
    /// The table and what may be wrong, behind what is told of the files.
    Files,
    /// The table and what may be wrong.
    Table {
        /// The numbers of public facts too.
        facts: bool,
        /// What each agent shows the others too.
        views: bool,
    },
    /// The united problem.
    United {
        domain: bool,
        problem: bool,
    },
}

/// The names of the files of each agent.
fn files_of<'a>(alloc: Global, names: &[&'a str]) -> Result<Vec<FileNames<'a>>, OutOfMemory> {
    let mut files = Vec::new(alloc);
    for pair in names.chunks(2) {
        if let [domain, problem] = pair {
            files.push(FileNames {
                domain: *domain,
                problem: *problem,
            })?;
        }
    }
    Ok(files)
}

/// Tells that something has no numbers, unless memory was lacking.
fn tell_unnumbered(out: &mut String, told: Result<(), GroundRefusal>) -> Result<(), OutOfMemory> {
    match told {
        Ok(()) => Ok(()),
        Err(GroundRefusal::OutOfMemory) => Err(OutOfMemory),
        Err(_) => {
            out.push_str("a factor is too large: its facts have no numbers\n")?;
            Ok(())
        }
    }
}

/// Tells of a team.
fn tell_team(
    alloc: Global,
    out: &mut String,
    team: &[CheckedFactor],
    names: &[&str],
    facts: bool,
    views: bool,
) -> Result<(), OutOfMemory> {
    let files = files_of(alloc, names)?;
    explain_team(alloc, out, team, files.as_slice())?;
    if facts {
        let told = explain_facts(alloc, out, team);
        tell_unnumbered(out, told)?;
    }
    if views {
        let told = explain_views(alloc, out, team);
        tell_unnumbered(out, told)?;
    }
    Ok(())
}

/// The united problem of a team, or one of its two files.
fn united(
    alloc: Global,
    team: &[CheckedFactor],
    domain: bool,
    problem: bool,
) -> Result<Answer, OutOfMemory> {
    let mut made = List::new(alloc);
    if domain {
        united_domain(alloc, &mut made, team)?;
    }
    if problem {
        united_problem(alloc, &mut made, team)?;
    }
    Ok(made_of(alloc, made, Ending::Fine))
}

/// What is asked of a team, told.
fn answer_asked(
    alloc: Global,
    mut text: String,
    team: &[CheckedFactor],
    names: &[&str],
    asked: Asked,
) -> Result<Answer, OutOfMemory> {
    match asked {
        Asked::Files => {
            tell_team(alloc, &mut text, team, names, false, false)?;
            Ok(telling(alloc, text, Ending::Fine))
        }
        Asked::Table { facts, views } => {
            let mut table = String::new(alloc);
            tell_team(alloc, &mut table, team, names, facts, views)?;
            Ok(telling(alloc, table, Ending::Fine))
        }
        Asked::United { domain, problem } => united(alloc, team, domain, problem),
    }
}

/// What is asked of the team of these files, or what is wrong with them.
pub(crate) fn answer_team<S: Source>(
    alloc: Global,
    source: &mut S,
    words: &[String],
    asked: Asked,
) -> Result<Answer, OutOfMemory> {
    let Some(names) = names_in(alloc, words)? else {
        return no_command(alloc);
    };
    let mut text = String::new(alloc);
    match accepted_team(alloc, source, &mut text, names.as_slice())? {
        Some(team) => answer_asked(alloc, text, team.as_slice(), names.as_slice(), asked),
        None => Ok(telling(alloc, text, Ending::Faulty)),
    }
}

/// What `team` asks for: its options and then the words behind them.
pub(crate) fn asked_of_team(words: &[String]) -> (Asked, &[String]) {
    let mut facts = false;
    let mut views = false;
    for (at, word) in words.iter().enumerate() {
        match word.as_str() {
            "--facts" => facts = true,
            "--views" => views = true,
            _ => return (Asked::Table { facts, views }, &words[at..]),
        }
    }
    (Asked::Table { facts, views }, &words[words.len()..])
}

/// What `unite` asks for: which of the two files, and then the words behind it.
pub(crate) fn asked_united(words: &[String]) -> (Asked, &[String]) {
    if let [first, behind @ ..] = words {
        match first.as_str() {
            "--domain" => {
                return (
                    Asked::United {
                        domain: true,
                        problem: false,
                    },
                    behind,
                );
            }
            "--problem" => {
                return (
                    Asked::United {
                        domain: false,
                        problem: true,
                    },
                    behind,
                );
            }
            _ => {}
        }
    }
    (
        Asked::United {
            domain: true,
            problem: true,
        },
        words,
    )
}
