//! A source in memory.

ghost use Rattle.std.specs.Prelude.{◌≡◌, ◌≢◌, ◌<◌, ◌≤◌, ◌+◌, ◌↔◌, true, false, Some, None, [], Ok, IfSome, IfNone, IsSome, IfOk, IsErr, is_err, OnErr, IsTrue, if◌then◌else◌, length, min, take, drop, vec_items};
ghost use Rattle.std.specs.Io.KnownBytes.{Consumes, IsAtEnd};
ghost use Rattle.mp_outside.specs.Calls.{after_call, next_fails};
ghost use Rattle.std.specs.Option.{option_and_then};
ghost use Rattle.mp_outside.specs.Memory.{held_in, name_at, rest_at};
ghost use Rattle.mp_outside.specs.Acts.{Does, Begins, Takes, TakesUpTo};
ghost use Rattle.mp_outside.specs.Noted.{acts_of};
ghost use Rattle.mp_outside.specs.Source.{LosesAtMost};

use crate::calls::Calls;
use crate::failed::Failed;
use crate::named_text::NamedText;
use crate::notes::{Note, Notes};
use crate::source::Source;
use mp_list::List;

/// A source that holds files in memory, for tests: it gives at most so many bytes at a read, and fails at the
/// calls, of `begin` and `read` counted together from 1, that are to fail. A name that it does not hold it
/// answers by false, at a failing call too; of two files of one name it holds the first. It tells everything, and what
/// is done at it as long as there is memory to note that.
#[derive(Drop)]
pub struct MemSource {
    files: List<NamedText>,
    greatest: usize,
    calls: Calls,
    faults: u64,
    begun: bool,
    // The file that was begun, and how many of its bytes were given.
    file: usize,
    given: usize,
    // The file at which the last fault came.
    fault_at: Option<usize>,
    notes: Notes,
    ghost some: { 0 < greatest },
    ghost counted: { faults ≤ calls.made },
}

impl MemSource {
    /// A source of these files, which gives at most `greatest` bytes at a read, and fails at the calls of these
    /// numbers.
    pub fn new(files: List<NamedText>, greatest: usize, failing: Vec<u64>) -> MemSource
        requires { 0 < greatest }
        ensures files { result.files ≡ files }
        ensures greatest { result.greatest ≡ greatest }
        ensures made { result.calls.made ≡ 0 }
        ensures failing { result.calls.failing ≡ failing }
        ensures faults { result.faults ≡ 0 }
        ensures begun { result.begun ≡ false }
        ensures fault_at { result.fault_at ≡ None }
        ensures notes { acts_of result.files result.notes ≡ Some [] }
    {
        let notes = Notes::new(*failing.allocator());
        MemSource {
            files,
            greatest,
            calls: Calls::new(failing),
            faults: 0,
            begun: false,
            file: 0,
            given: 0,
            fault_at: None,
            notes,
        }
    }

    /// How many faults there were.
    pub fn faults(&self) -> u64
        ensures { result ≡ self.now.faults }
    {
        self.faults
    }
}

impl Source for MemSource {
    ghost held = { λ s. Some (held_in s.files) };

    ghost is_begun = { λ s. s.begun };

    ghost left = { λ s. rest_at s.files s.file s.given };

    ghost begun = { λ s. name_at s.files s.file };

    ghost fault_at = { λ s. option_and_then (name_at s.files) s.fault_at };

    ghost faults = { λ s. s.faults };

    ghost acts = { λ s. acts_of s.files s.notes };

    fn begin(&mut self, name: &str) -> Result<bool, Failed>
        ensures files { self.new.files ≡ self.old.files }
        ensures absent { (result ≡ Ok false) ↔ (held_in self.old.files name.now ≡ None) }
        ensures no_fault { IfOk result (λ _. self.new.faults ≡ self.old.faults) }
        ensures still { result ≢ Ok true → rest_at self.new.files self.new.file self.new.given ≡ rest_at self.old.files self.old.file self.old.given }
        ensures begun { result ≡ Ok true → self.new.begun ≡ true }
        ensures whole { result ≡ Ok true → rest_at self.new.files self.new.file self.new.given ≡ held_in self.old.files name.now }
        ensures name { result ≡ Ok true → name_at self.new.files self.new.file ≡ Some name.now }
        ensures at { OnErr result (option_and_then (name_at self.new.files) self.new.fault_at ≡ Some name.now) }
        ensures act { result ≡ Ok true → Does (Begins name.now) (acts_of self.old.files self.old.notes) (acts_of self.new.files self.new.notes) }
        ensures no_act { result ≢ Ok true → self.new.notes ≡ self.old.notes }

        // The calls that are to fail do, and no others; each call is counted, and each fault.
        ensures fails { IsErr result ↔ (IsSome (held_in self.old.files name.now) × IsTrue (next_fails self.old.calls.made self.old.calls.failing.items)) }
        ensures made { self.new.calls.made ≡ after_call self.old.calls.made }
        ensures raised { self.new.faults ≡ self.old.faults + (if is_err result then 1 else 0) }
        ensures same { (self.new.greatest ≡ self.old.greatest) × (self.new.calls.failing ≡ self.old.calls.failing) }
    {
        let fails = self.calls.count();
        let Some(file) = place_of(self.files.as_slice(), name) else {
            return Ok(false);
        };
        if fails {
            self.faults += 1;
            self.fault_at = Some(file);
            return Err(Failed);
        }
        self.begun = true;
        self.file = file;
        self.given = 0;
        self.notes.add(Note::Began(file));
        Ok(true)
    }

    fn read(&mut self, buf: &mut [u8]) -> Result<usize, Failed>
        requires room { 0 < length buf.old }
        requires begun { self.old.begun ≡ true }
        ensures files { self.new.files ≡ self.old.files }
        ensures count { IfOk result (λ n. n ≤ length buf.old) }
        ensures bytes { IfOk result (λ n. Consumes (rest_at self.old.files self.old.file self.old.given) (rest_at self.new.files self.new.file self.new.given) (take n buf.new)) }
        ensures end { IfOk result (λ n. n ≡ 0 → IsAtEnd (rest_at self.old.files self.old.file self.old.given)) }
        ensures still { (self.new.begun ≡ self.old.begun) × (self.new.file ≡ self.old.file) }
        ensures at { OnErr result (option_and_then (name_at self.new.files) self.new.fault_at ≡ name_at self.old.files self.old.file) }

        ensures no_fault { IfOk result (λ _. self.new.faults ≡ self.old.faults) }
        ensures lost { OnErr result (LosesAtMost (rest_at self.old.files self.old.file self.old.given) (rest_at self.new.files self.new.file self.new.given) (length buf.old)) }

        ensures act { IfOk result (λ n. Does (Takes n) (acts_of self.old.files self.old.notes) (acts_of self.new.files self.new.notes)) }
        ensures failed_act { OnErr result (Does (TakesUpTo (length buf.old)) (acts_of self.old.files self.old.notes) (acts_of self.new.files self.new.notes)) }

        // A failing call takes nothing; another one takes as much as it may.
        ensures kept { OnErr result (self.new.given ≡ self.old.given) }
        ensures most { IfOk result (λ n. IfSome (rest_at self.old.files self.old.file self.old.given) (λ rest. n ≡ min (min (length rest) (length buf.old)) self.old.greatest)) }

        // The calls that are to fail do, and no others; each call is counted, and each fault.
        ensures fails { IsErr result ↔ IsTrue (next_fails self.old.calls.made self.old.calls.failing.items) }
        ensures made { self.new.calls.made ≡ after_call self.old.calls.made }
        ensures raised { self.new.faults ≡ self.old.faults + (if is_err result then 1 else 0) }
        ensures same { (self.new.greatest ≡ self.old.greatest) × (self.new.calls.failing ≡ self.old.calls.failing) }
    {
        let answer = self.give(buf);
        self.notes.add(Note::Took(taken(answer)));
        answer
    }
}

impl MemSource {
    // What a read gives, without a note of it.
    fn give(&mut self, buf: &mut [u8]) -> Result<usize, Failed>
        requires room { 0 < length buf.old }
        requires begun { self.old.begun ≡ true }
        ensures files { self.new.files ≡ self.old.files }
        ensures count { IfOk result (λ n. n ≤ length buf.old) }
        ensures bytes { IfOk result (λ n. Consumes (rest_at self.old.files self.old.file self.old.given) (rest_at self.new.files self.new.file self.new.given) (take n buf.new)) }
        ensures end { IfOk result (λ n. n ≡ 0 → IsAtEnd (rest_at self.old.files self.old.file self.old.given)) }
        ensures still { (self.new.begun ≡ self.old.begun) × (self.new.file ≡ self.old.file) }
        ensures at { OnErr result (option_and_then (name_at self.new.files) self.new.fault_at ≡ name_at self.old.files self.old.file) }

        ensures no_fault { IfOk result (λ _. self.new.faults ≡ self.old.faults) }
        ensures lost { OnErr result (LosesAtMost (rest_at self.old.files self.old.file self.old.given) (rest_at self.new.files self.new.file self.new.given) (length buf.old)) }

        ensures notes { self.new.notes ≡ self.old.notes }

        // A failing call takes nothing; another one takes as much as it may.
        ensures kept { OnErr result (self.new.given ≡ self.old.given) }
        ensures most { IfOk result (λ n. IfSome (rest_at self.old.files self.old.file self.old.given) (λ rest. n ≡ min (min (length rest) (length buf.old)) self.old.greatest)) }

        // The calls that are to fail do, and no others; each call is counted, and each fault.
        ensures fails { IsErr result ↔ IsTrue (next_fails self.old.calls.made self.old.calls.failing.items) }
        ensures made { self.new.calls.made ≡ after_call self.old.calls.made }
        ensures raised { self.new.faults ≡ self.old.faults + (if is_err result then 1 else 0) }
        ensures same { (self.new.greatest ≡ self.old.greatest) × (self.new.calls.failing ≡ self.old.calls.failing) }
    {
        let fails = self.calls.count();
        if fails {
            self.faults += 1;
            self.fault_at = Some(self.file);
            return Err(Failed);
        }
        let Some(file) = self.files.get(self.file) else {
            return Ok(0);
        };
        let count = copy_front(
            rest_of(file.text.as_slice(), self.given),
            buf,
            self.greatest,
        );
        self.given += count;
        Ok(count)
    }
}

// How many bytes a read took.
fn taken(answer: Result<usize, Failed>) -> usize
    ensures count { IfOk answer (λ n. result ≡ n) }
    ensures none { OnErr answer (result ≡ 0) }
{
    match answer {
        Ok(count) => count,
        Err(_) => 0,
    }
}

// The place of the first file of this name.
fn place_of(files: &[NamedText], name: &str) -> Option<usize>
    ensures none { IfNone result (held_in files.now name.now ≡ None) }
    ensures whole { IfSome result (λ place. rest_at files.now place 0 ≡ held_in files.now name.now) }
    ensures name { IfSome result (λ place. name_at files.now place ≡ Some name.now) }
{
    for (place, file) in files.iter().enumerate() {
        if file.name.as_str() == name {
            return Some(place);
        }
    }
    None
}

// The bytes from a place on.
fn rest_of(text: &[u8], from: usize) -> &[u8]
    ensures { result.now ≡ drop from text.now }
{
    if from > text.len() {
        return &text[text.len()..];
    }
    &text[from..]
}

// Copies the front of a text into a buffer, at most so many bytes: how many.
fn copy_front(text: &[u8], buf: &mut [u8], most: usize) -> usize
    ensures count { result ≡ min (min (length text.now) (length buf.old)) most }
    ensures bytes { take result buf.new ≡ take result text.now }
{
    let count = text.len().min(buf.len()).min(most);
    buf[..count].copy_from_slice(&text[..count]);
    count
}
