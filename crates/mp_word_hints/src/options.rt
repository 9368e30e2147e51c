//! The options of `maplan`, and which command accepts which.

ghost use Rattle.std.specs.Prelude.{◌≤◌};

use crate::commands::Command;

/// An option of `maplan`.
#[derive(Clone, Copy, Debug, PartialEq, Eq)]
pub(crate) enum Setting {
    Limit,
    Heuristic,
    Workers,
    One,
    Trace,
    Show,
}

/// The names of all options.
pub(crate) const NAMES: [&str; 6] = ["--limit", "--h", "--workers", "--one", "--trace", "--show"];

/// The option of this name.
pub(crate) fn setting_of(name: &str) -> Option<Setting> {
    match name {
        "--limit" => Some(Setting::Limit),
        "--h" => Some(Setting::Heuristic),
        "--workers" => Some(Setting::Workers),
        "--one" => Some(Setting::One),
        "--trace" => Some(Setting::Trace),
        "--show" => Some(Setting::Show),
        _ => None,
    }
}

impl Setting {
    /// Its place among the options, from 0 to 5.
    pub(crate) fn place(self) -> u32
        ensures { result ≤ 5 }
    {
        match self {
            Setting::Limit => 0,
            Setting::Heuristic => 1,
            Setting::Workers => 2,
            Setting::One => 3,
            Setting::Trace => 4,
            Setting::Show => 5,
        }
    }

    /// Its name.
    pub(crate) fn name(self) -> &'static str {
        match self {
            Setting::Limit => "--limit",
            Setting::Heuristic => "--h",
            Setting::Workers => "--workers",
            Setting::One => "--one",
            Setting::Trace => "--trace",
            Setting::Show => "--show",
        }
    }

    /// Whether it has a value, as the next word or behind `=`.
    pub(crate) fn has_value(self) -> bool {
        match self {
            Setting::Limit | Setting::Heuristic | Setting::Workers => true,
            Setting::One | Setting::Trace | Setting::Show => false,
        }
    }

    /// The values that it accepts, in words.
    pub(crate) fn values(self) -> &'static str {
        match self {
            Setting::Limit => "a number from 1 to 10000000, written with 1 to 8 digits",
            Setting::Heuristic => "`blind`, `max`, `cut` or `pdb`",
            Setting::Workers => "a number from 1 to 16, written with 1 to 8 digits",
            Setting::One | Setting::Trace | Setting::Show => "no value",
        }
    }

    /// Whether a command accepts it.
    pub(crate) fn is_of(self, command: Command) -> bool {
        match command {
            Command::Solve => self != Setting::Show,
            Command::Make => self != Setting::Trace,
            Command::Replay => self == Setting::Limit || self == Setting::Heuristic,
            Command::Certify => self == Setting::Limit,
            Command::Check | Command::Steps | Command::Audit => false,
        }
    }

    /// Whether it accepts this value.
    pub(crate) fn accepts(self, value: &str) -> bool {
        match self {
            Setting::Limit => is_number_between(1, 10_000_000, value),
            Setting::Workers => is_number_between(1, 16, value),
            Setting::Heuristic => matches!(value, "blind" | "max" | "cut" | "pdb"),
            Setting::One | Setting::Trace | Setting::Show => false,
        }
    }
}

/// Whether a word is a number from the first to the last, written with 1 to 8 digits.
pub(crate) fn is_number_between(first: u64, last: u64, word: &str) -> bool {
    let digits = word.as_bytes();
    if digits.is_empty() || digits.len() > 8 {
        return false;
    }
    if !digits.iter().all(|digit| digit.is_ascii_digit()) {
        return false;
    }
    match word.parse::<u64>() {
        Ok(number) => first <= number && number <= last,
        Err(_) => false,
    }
}
