//! The commands of `maplan_explain`.

/// A command of `maplan_explain`.
#[derive(Clone, Copy, Debug, PartialEq, Eq)]
pub(crate) enum Command {
    Help,
    Version,
    Words,
    Files,
    Team,
    Run,
    Picture,
    Ipc,
    Unite,
}

/// The command of this name.
pub(crate) fn command_of(name: &str) -> Option<Command> {
    match name {
        "--help" | "help" => Some(Command::Help),
        "--version" => Some(Command::Version),
        "words" => Some(Command::Words),
        "files" => Some(Command::Files),
        "team" => Some(Command::Team),
        "run" => Some(Command::Run),
        "steps-svg" => Some(Command::Picture),
        "ipc" => Some(Command::Ipc),
        "unite" => Some(Command::Unite),
        _ => None,
    }
}
