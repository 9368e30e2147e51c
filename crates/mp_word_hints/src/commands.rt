//! The commands of `maplan`, and what each accepts.

/// A command of `maplan`.
#[derive(Clone, Copy, Debug, PartialEq, Eq)]
pub enum Command {
    Solve,
    Replay,
    Check,
    Steps,
    Certify,
    Audit,
    Make,
}

/// The names of all commands.
pub(crate) const NAMES: [&str; 7] = [
    "solve", "replay", "check", "steps", "certify", "audit", "make",
];

/// The command of this name.
pub fn command_of(name: &str) -> Option<Command> {
    match name {
        "solve" => Some(Command::Solve),
        "replay" => Some(Command::Replay),
        "check" => Some(Command::Check),
        "steps" => Some(Command::Steps),
        "certify" => Some(Command::Certify),
        "audit" => Some(Command::Audit),
        "make" => Some(Command::Make),
        _ => None,
    }
}

impl Command {
    /// How many names of files stand before those of the agents.
    pub(crate) fn files_before(self) -> usize {
        match self {
            Command::Solve | Command::Certify | Command::Make => 0,
            Command::Replay | Command::Check | Command::Steps => 1,
            Command::Audit => 2,
        }
    }

    /// Its name.
    pub(crate) fn name(self) -> &'static str {
        match self {
            Command::Solve => "solve",
            Command::Replay => "replay",
            Command::Check => "check",
            Command::Steps => "steps",
            Command::Certify => "certify",
            Command::Audit => "audit",
            Command::Make => "make",
        }
    }
}

/// The words of a command, as its line of help shows them.
pub fn usage_of(command: Command) -> &'static str {
    match command {
        Command::Solve => {
            "solve [--limit N] [--h blind|max|cut|pdb] [--one] [--workers N] [--trace] D1 P1 D2 P2 .."
        }
        Command::Replay => "replay [--limit N] [--h blind|max|cut|pdb] SCHEDULE D1 P1 ..",
        Command::Check => "check PLAN D1 P1 ..",
        Command::Steps => "steps PLAN D1 P1 ..",
        Command::Certify => "certify [--limit N] D1 P1 ..",
        Command::Audit => "audit CERTIFICATE PLAN D1 P1 ..",
        Command::Make => {
            "make [--limit N] [--h blind|max|cut|pdb] [--one] [--workers N] [--show] delivery SIZE NUMBER"
        }
    }
}
