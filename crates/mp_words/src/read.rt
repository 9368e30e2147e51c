//! What was read of the words so far.

ghost use Rattle.std.specs.Prelude.{◌≡◌, IfOk, OnOk, MatchOption, None, Some, option_map};
ghost use Rattle.mp_words.specs.Asked.{nothing};
ghost use Rattle.mp_words.specs.Reads.{asked_by, where_accepted};
ghost use Rattle.mp_words.specs.Words.{after_free_word, after_option, after_valued, after_word, awaiting, is_plain as is_plain_word, with_heuristic, with_limit, with_plain_alone, with_one, with_option, with_show, with_trace, with_value, with_workers, behind as behind_in, choice_of as choice_of_word};

use crate::asked::{Choice, Valued};
use crate::numbers::number_between;
use std::alloc::{AllocError, Global};

/// The options that were given, the option whose value comes next, whether all words that come are plain, and the
/// plain words so far.
#[derive(Drop)]
pub(crate) struct Read<'a> {
    pub(crate) limit: Option<u64>,
    pub(crate) heuristic: Option<Choice>,
    pub(crate) workers: Option<u64>,
    pub(crate) one: bool,
    pub(crate) trace: bool,
    pub(crate) show: bool,
    pub(crate) awaited: Option<Valued>,
    pub(crate) plain_alone: bool,
    pub(crate) plain: Vec<&'a str>,
}

/// Whether a word is plain, as the name of a file: `-`, or one that does not begin with `-`.
fn is_plain(word: &[u8]) -> bool
    ensures { result ≡ is_plain_word word.now }
{
    match word {
        [] => true,
        [first, rest @ ..] => *first != b'-' || rest.is_empty(),
    }
}

/// What stands behind a beginning of a word.
fn behind<'a>(first: &[u8], word: &'a [u8]) -> Option<&'a [u8]>
    ensures { MatchOption result (behind_in first.now word.now ≡ None) (λ rest. behind_in first.now word.now ≡ Some rest.now) }
{
    if word.starts_with(first) {
        return Some(&word[first.len()..]);
    }
    None
}

/// The heuristic of a word.
fn choice_of(word: &[u8]) -> Option<Choice>
    ensures { result ≡ choice_of_word word.now }
{
    if word == b"blind".as_slice() {
        return Some(Choice::Blind);
    }
    if word == b"max".as_slice() {
        return Some(Choice::Max);
    }
    if word == b"cut".as_slice() {
        return Some(Choice::Cut);
    }
    if word == b"pdb".as_slice() {
        return Some(Choice::Pdb);
    }
    None
}

impl<'a> Read<'a> {
    /// Nothing is read.
    pub(crate) fn new(alloc: Global) -> Read<'a>
        ensures { asked_by result ≡ nothing }
    {
        Read {
            limit: None,
            heuristic: None,
            workers: None,
            one: false,
            trace: false,
            show: false,
            awaited: None,
            plain_alone: false,
            plain: Vec::new(alloc),
        }
    }

    /// Gives a limit, and says whether it may be given.
    fn give_limit(&mut self, word: &[u8]) -> bool
        ensures { where_accepted result self.new ≡ with_limit (asked_by self.old) word.now }
    {
        let Some(limit) = number_between(1, 10_000_000, word) else {
            return false;
        };
        if self.limit.is_some() {
            return false;
        }
        self.limit = Some(limit);
        self.awaited = None;
        true
    }

    /// Gives a number of workers, and says whether it may be given.
    fn give_workers(&mut self, word: &[u8]) -> bool
        ensures { where_accepted result self.new ≡ with_workers (asked_by self.old) word.now }
    {
        let Some(workers) = number_between(1, 16, word) else {
            return false;
        };
        if self.workers.is_some() {
            return false;
        }
        self.workers = Some(workers);
        self.awaited = None;
        true
    }

    /// Gives a heuristic, and says whether it may be given.
    fn give_heuristic(&mut self, word: &[u8]) -> bool
        ensures { where_accepted result self.new ≡ with_heuristic (asked_by self.old) word.now }
    {
        let Some(heuristic) = choice_of(word) else {
            return false;
        };
        if self.heuristic.is_some() {
            return false;
        }
        self.heuristic = Some(heuristic);
        self.awaited = None;
        true
    }

    /// Gives an option its value, and says whether it may be given.
    fn give(&mut self, option: Valued, word: &[u8]) -> bool
        ensures { where_accepted result self.new ≡ with_value (asked_by self.old) option word.now }
    {
        match option {
            Valued::Limit => self.give_limit(word),
            Valued::Heuristic => self.give_heuristic(word),
            Valued::Workers => self.give_workers(word),
        }
    }

    /// Gives `--one`, and says whether it may be given.
    fn give_one(&mut self) -> bool
        ensures { where_accepted result self.new ≡ with_one (asked_by self.old) }
    {
        if self.one {
            return false;
        }
        self.one = true;
        true
    }

    /// Gives `--trace`, and says whether it may be given.
    fn give_trace(&mut self) -> bool
        ensures { where_accepted result self.new ≡ with_trace (asked_by self.old) }
    {
        if self.trace {
            return false;
        }
        self.trace = true;
        true
    }

    /// Gives `--show`, and says whether it may be given.
    fn give_show(&mut self) -> bool
        ensures { where_accepted result self.new ≡ with_show (asked_by self.old) }
    {
        if self.show {
            return false;
        }
        self.show = true;
        true
    }

    /// Reads an option with its value behind `=`, and says whether it is one.
    fn read_valued(&mut self, word: &[u8]) -> bool
        ensures { where_accepted result self.new ≡ with_option (asked_by self.old) word.now }
    {
        if let Some(value) = behind(b"--limit=", word) {
            return self.give_limit(value);
        }
        if let Some(value) = behind(b"--h=", word) {
            return self.give_heuristic(value);
        }
        if let Some(value) = behind(b"--workers=", word) {
            return self.give_workers(value);
        }
        false
    }

    /// The value of this option is the next word.
    fn await_value(&mut self, option: Valued) -> bool
        ensures { where_accepted result self.new ≡ Some (awaiting (asked_by self.old) option) }
    {
        self.awaited = Some(option);
        true
    }

    /// Reads an option whose value is the next word or stands behind `=`, and says whether it is one.
    fn read_with_value(&mut self, word: &str) -> bool
        ensures { where_accepted result self.new ≡ after_valued (asked_by self.old) word.now }
    {
        if word == "--limit" {
            return self.await_value(Valued::Limit);
        }
        if word == "--h" {
            return self.await_value(Valued::Heuristic);
        }
        if word == "--workers" {
            return self.await_value(Valued::Workers);
        }
        self.read_valued(word.as_bytes())
    }

    /// All words that come are plain.
    fn end_options(&mut self) -> bool
        ensures { where_accepted result self.new ≡ Some (with_plain_alone (asked_by self.old)) }
    {
        self.plain_alone = true;
        true
    }

    /// Reads a word that begins with `-` and is not plain, and says whether it is accepted.
    fn read_option(&mut self, word: &str) -> bool
        ensures { where_accepted result self.new ≡ after_option (asked_by self.old) word.now }
    {
        if word == "--" {
            return self.end_options();
        }
        if word == "--one" {
            return self.give_one();
        }
        if word == "--trace" {
            return self.give_trace();
        }
        if word == "--show" {
            return self.give_show();
        }
        self.read_with_value(word)
    }

    /// Reads a word that is no value, and says whether it is accepted.
    fn read_free(&mut self, word: &'a str) -> Result<bool, AllocError>
        ensures { IfOk result (λ accepted. where_accepted accepted self.new ≡ after_free_word (asked_by self.old) word.now) }
    {
        if self.plain_alone || is_plain(word.as_bytes()) {
            self.plain.push(word)?;
            return Ok(true);
        }
        Ok(self.read_option(word))
    }

    /// Reads the next word, and says whether it is accepted.
    pub(crate) fn read(&mut self, word: &'a str) -> Result<bool, AllocError>
        ensures { IfOk result (λ accepted. where_accepted accepted self.new ≡ after_word (asked_by self.old) word.now) }
    {
        match self.awaited {
            Some(option) => Ok(self.give(option, word.as_bytes())),
            None => self.read_free(word),
        }
    }
}
