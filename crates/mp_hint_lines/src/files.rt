//! The names of files.

use mp_forms::File;

/// The names of the two files of an agent, as they were given.
#[derive(Clone, Copy)]
pub struct FileNames<'a> {
    pub domain: &'a str,
    pub problem: &'a str,
}

impl<'a> FileNames<'a> {
    /// The name of one of them.
    pub fn name(self, file: File) -> &'a str {
        match file {
            File::Domain => self.domain,
            File::Problem => self.problem,
        }
    }
}

/// The names of the files of the agent at a place of its team, counted from 0; `?` where none are given.
pub fn files_of<'a>(files: &[FileNames<'a>], agent: usize) -> FileNames<'a> {
    match files.get(agent) {
        Some(names) => *names,
        None => FileNames {
            domain: "?",
            problem: "?",
        },
    }
}
