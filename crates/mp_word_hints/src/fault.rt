//! What is wrong with words.

use crate::options::Setting;

/// The first thing that is wrong with words, whose places are counted from 1.
#[derive(Clone, Copy)]
pub(crate) enum WordFault<'a> {
    /// There are no words.
    NoCommand,
    /// The first word is no command.
    UnknownCommand(&'a str),
    /// This word is no option.
    UnknownOption(usize, &'a str),
    /// This word is an option that the command does not accept.
    NotOfCommand(usize, Setting),
    /// This option is given a second time.
    Again(usize, Setting),
    /// This option takes no value, and one stands behind `=`.
    NoValue(usize, Setting),
    /// This word is no value of its option.
    BadValue(usize, Setting, &'a str),
    /// The last word is an option whose value is missing.
    NoValueLeft(Setting),
    /// This many plain words are missing one or are too many.
    Count(usize),
    /// This plain word of `make`, its first, is no family of problems.
    Family(&'a str),
    /// This plain word of `make`, its second, is no size.
    Size(&'a str),
    /// This plain word of `make`, its third, is no number.
    Number(&'a str),
}
