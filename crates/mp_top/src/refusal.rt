//! Why a call ends without an outcome, and the line that says so.

ghost use Rattle.std.specs.Prelude.{◌≡◌, ◌++◌, ◌∷◌, [], codes, decimal, map, slice_get, unwrap_or};
ghost use Rattle.std.specs.List.{flat_map};
ghost use Rattle.mp_files.specs.Fetched.{names_of};
ghost use Rattle.mp_top.specs.Call.{seen_sink, Says};
ghost use Rattle.mp_top.specs.Refusal.{status_of, status_of_files, status_of_first, status_of_sizes};
ghost use Rattle.mp_top.specs.Refusal.{line_of, line_of_files, line_of_first, line_of_sizes};
ghost use Rattle.mp_top.specs.Refusal.{name_of as name_of_file, text_of_fault, word_of_fault};
ghost use Rattle.mp_top.specs.Refusal.{words_line, memory_line, write_line, fault_line, refused_line, sizes_line};

use crate::status::Status;
use itoa::Buffer;
use mp_files::{AgentFiles, Fault, FileOf, Refusal as FilesRefusal};
use mp_forms::File;
use mp_grounder::GroundRefusal;
use mp_list::OutOfMemory;
use mp_outside::{Sink, put_all};
use mp_sets::Agent;
use mp_sexp::Place;
use thiserror::Error;

/// Why a file that stands before those of the agents, with a schedule, a plan or a certificate, is refused.
#[derive(Clone, Copy, Debug, PartialEq, Eq, Error)]
pub enum FirstRefusal {
    /// The file is not held, or reading it failed.
    #[error("read")]
    Read,
    /// The file has more bytes than it may have: 67,108,864 for a schedule or a certificate, 4,194,304 for a plan.
    #[error("too large")]
    TooLarge,
    /// The line of this number, from 1: of a schedule, it is neither of an event nor of a message, or its event may not
    /// happen; of a plan, it is not of its form, or the line after the last one is missing; of a certificate, it is not of its
    /// form, or does not fit the team.
    #[error("line {0}")]
    Line(u64),
}

/// Why a call of accepted words ends without an outcome, before anything is written.
#[derive(Debug, Drop, Error)]
pub enum Refusal {
    /// The files of the team are refused.
    #[error("files")]
    Files(FilesRefusal),
    /// The factor of an agent is not grounded, since it is too large.
    #[error("sizes")]
    Sizes(GroundRefusal),
    /// Of the files before those of the agents the one at this place, from 0, is refused.
    #[error("first file")]
    First(usize, FirstRefusal),
}

impl From<OutOfMemory> for Refusal {
    ghost use Rattle.std.specs.Prelude.{◌≡◌};
    ghost use Rattle.mp_files.specs.declared.refusal.Refusal.TheVariants as files;
    ghost use Rattle.mp_top.specs.declared.refusal.Refusal.TheVariants as refusals;

    ghost from_gives = { λ _ e. e ≡ refusals.Files files.OutOfMemory };

    fn from(_e: OutOfMemory) -> Refusal {
        Refusal::Files(FilesRefusal::OutOfMemory)
    }
}

/// The code and name of a fault.
fn text_of(fault: &Fault) -> &'static [u8]
    ensures { result.now ≡ text_of_fault fault.now }
{
    match fault {
        Fault::Char => b"F1 char",
        Fault::Unbalanced => b"F2 unbalanced",
        Fault::Trailing => b"F3 trailing",
        Fault::Deep => b"F11 deep",
        Fault::Shape => b"F4 shape",
        Fault::Unsupported(_) => b"F5 unsupported ",
        Fault::Parameters => b"F5 unsupported parameters",
        Fault::Cost => b"F9 cost",
        Fault::WrongDomain(_) => b"F10 domain ",
        Fault::Unknown(_) => b"F6 unknown ",
        Fault::Arity(_) => b"F7 arity ",
        Fault::Twice(_) => b"F8 twice ",
    }
}

/// The word of the file that a fault names behind that.
fn word_of(fault: &Fault) -> &[u8]
    ensures { result.now ≡ word_of_fault fault.now }
{
    match fault {
        Fault::Unsupported(word) => word.as_slice(),
        Fault::WrongDomain(word) => word.as_slice(),
        Fault::Unknown(word) => word.as_slice(),
        Fault::Arity(word) => word.as_slice(),
        Fault::Twice(word) => word.as_slice(),
        _ => b"",
    }
}

/// The word of the command line that names a file.
fn name_of<'a>(files: &[AgentFiles<'a>], at: FileOf) -> &'a str
    ensures { result.now ≡ name_of_file (map names_of files.now) at }
{
    let Some(own) = files.get(at.agent) else {
        return "";
    };
    match at.file {
        File::Domain => own.domain,
        File::Problem => own.problem,
    }
}

/// The status of a call whose files are refused.
fn status_of_files_refused(refusal: &FilesRefusal) -> Status
    ensures { result ≡ status_of_files refusal.now }
{
    match refusal {
        FilesRefusal::Read(_) => Status::Read,
        FilesRefusal::TooLarge(_) => Status::TooLarge,
        FilesRefusal::Fault(_, _, _) => Status::Refused,
        FilesRefusal::OutOfMemory => Status::Memory,
    }
}

/// The status of a call with an agent whose factor is not grounded.
fn status_of_sizes_refused(refusal: &GroundRefusal) -> Status
    ensures { result ≡ status_of_sizes refusal.now }
{
    match refusal {
        GroundRefusal::TooManyTries(_) => Status::TooLarge,
        GroundRefusal::TooManyActions(_, _) => Status::TooLarge,
        GroundRefusal::TooManyFacts(_, _) => Status::TooLarge,
        GroundRefusal::OutOfMemory => Status::Memory,
    }
}

/// The status of a call whose schedule, plan or certificate is refused.
fn status_of_first_refused(refusal: FirstRefusal) -> Status
    ensures { result ≡ status_of_first refusal }
{
    match refusal {
        FirstRefusal::Read => Status::Read,
        FirstRefusal::TooLarge => Status::TooLarge,
        FirstRefusal::Line(_) => Status::Line,
    }
}

/// Writes the line for files that are refused.
fn tell_files<E: Sink>(files: &[AgentFiles<'_>], refusal: &FilesRefusal, err: &mut E)
    ensures { Says (seen_sink E.written E.faults err.old err.new) (line_of_files (map names_of files.now) refusal.now) }
{
    match refusal {
        FilesRefusal::Read(at) => {
            say(
                err,
                &[
                    b"maplan: cannot read ",
                    name_of(files, *at).as_bytes(),
                    b"\n",
                ],
            )
        }
        FilesRefusal::TooLarge(at) => {
            say(
                err,
                &[
                    b"maplan: ",
                    name_of(files, *at).as_bytes(),
                    b": too large\n",
                ],
            )
        }
        FilesRefusal::Fault(at, fault, place) => {
            tell_fault(err, name_of(files, *at).as_bytes(), fault, *place)
        }
        FilesRefusal::OutOfMemory => tell_memory(err),
    }
}

/// Writes the line for an agent's factor that is too large.
fn tell_size<E: Sink>(err: &mut E, agent: Agent, what: &[u8])
    ensures { Says (seen_sink E.written E.faults err.old err.new) (sizes_line agent what.now) }
{
    let mut number = Buffer::new();
    let number = number.format(agent.number()).as_bytes();
    say(err, &[b"maplan: agent ", number, b": ", what, b"\n"])
}

/// Writes the line for an agent whose factor is not grounded.
fn tell_sizes<E: Sink>(refusal: &GroundRefusal, err: &mut E)
    ensures { Says (seen_sink E.written E.faults err.old err.new) (line_of_sizes refusal.now) }
{
    match refusal {
        GroundRefusal::TooManyTries(agent) => tell_size(err, *agent, b"G3 tries"),
        GroundRefusal::TooManyActions(agent, _) => tell_size(err, *agent, b"G2 actions"),
        GroundRefusal::TooManyFacts(agent, _) => tell_size(err, *agent, b"G1 facts"),
        GroundRefusal::OutOfMemory => tell_memory(err),
    }
}

/// Writes the line for a line of a schedule, plan or certificate that is refused.
fn tell_line<E: Sink>(err: &mut E, name: &[u8], number: u64)
    ensures { Says (seen_sink E.written E.faults err.old err.new) (refused_line name.now number) }
{
    let mut digits = Buffer::new();
    let digits = digits.format(number).as_bytes();
    say(err, &[b"maplan: ", name, b": line ", digits, b" refused\n"])
}

/// Writes the line for the schedule, plan or certificate of this name that is refused.
fn tell_first<E: Sink>(name: &[u8], refusal: FirstRefusal, err: &mut E)
    ensures { Says (seen_sink E.written E.faults err.old err.new) (line_of_first name.now refusal) }
{
    match refusal {
        FirstRefusal::Read => say(err, &[b"maplan: cannot read ", name, b"\n"]),
        FirstRefusal::TooLarge => say(err, &[b"maplan: ", name, b": too large\n"]),
        FirstRefusal::Line(number) => tell_line(err, name, number),
    }
}

/// The word of the command line that names the first file at a place; nothing where there is none.
fn first_name<'a>(first: &[&'a str], place: usize) -> &'a [u8]
    ensures { result.now ≡ unwrap_or (slice_get (map (λ name. name.now) first.now) place) [] }
{
    match first.get(place) {
        Some(name) => name.as_bytes(),
        None => b"",
    }
}

impl Refusal {
    /// The status of a call that ends so.
    pub(crate) fn status(&self) -> Status
        ensures { result ≡ status_of self.now }
    {
        match self {
            Refusal::Files(refusal) => status_of_files_refused(refusal),
            Refusal::Sizes(refusal) => status_of_sizes_refused(refusal),
            Refusal::First(_, refusal) => status_of_first_refused(*refusal),
        }
    }

    /// Writes the line that says so, without taking memory. A fault of the sink changes nothing else.
    pub(crate) fn tell<E: Sink>(&self, first: &[&str], files: &[AgentFiles<'_>], err: &mut E)
        ensures { Says (seen_sink E.written E.faults err.old err.new)
            (line_of (map (λ name. name.now) first.now) (map names_of files.now) self.now) }
    {
        match self {
            Refusal::Files(refusal) => tell_files(files, refusal, err),
            Refusal::Sizes(refusal) => tell_sizes(refusal, err),
            Refusal::First(place, refusal) => tell_first(first_name(first, *place), *refusal, err),
        }
    }
}

/// Writes the line for words that are not accepted.
pub(crate) fn tell_words<E: Sink>(err: &mut E)
    ensures { Says (seen_sink E.written E.faults err.old err.new) words_line }
{
    say(err, &[b"maplan: words\n"])
}

/// Writes the line for a failed write.
pub(crate) fn tell_write<E: Sink>(err: &mut E)
    ensures { Says (seen_sink E.written E.faults err.old err.new) write_line }
{
    say(err, &[b"maplan: cannot write\n"])
}

/// Writes the line for want of memory.
pub(crate) fn tell_memory<E: Sink>(err: &mut E)
    ensures { Says (seen_sink E.written E.faults err.old err.new) memory_line }
{
    say(err, &[b"maplan: out of memory\n"])
}

/// Writes the line of a fault at a place of a file.
fn tell_fault<E: Sink>(err: &mut E, name: &[u8], fault: &Fault, place: Place)
    ensures { Says (seen_sink E.written E.faults err.old err.new) (fault_line name.now fault.now place) }
{
    let mut line = Buffer::new();
    let mut column = Buffer::new();
    let line = line.format(place.line).as_bytes();
    let column = column.format(place.column).as_bytes();
    say_fault(err, name, line, column, text_of(fault), word_of(fault));
}

/// Writes a name, a line and a column, and what is wrong there.
fn say_fault<'a, E: Sink>(
    err: &mut E,
    name: &'a [u8],
    line: &'a [u8],
    column: &'a [u8],
    text: &'a [u8],
    word: &'a [u8],
)
    ensures { Says (seen_sink E.written E.faults err.old err.new)
        (codes "maplan: " ++ (name.now ++ (codes ":" ++ (line.now ++ (codes ":" ++ (column.now ++ (codes ": " ++ (text.now ++ (word.now ++ 10 ∷ []))))))))) }
{
    say(
        err,
        &[
            b"maplan: ",
            name,
            b":",
            line,
            b":",
            column,
            b": ",
            text,
            word,
            b"\n",
        ],
    )
}

/// Writes these texts as far as the sink takes them.
fn say<E: Sink>(sink: &mut E, texts: &[&[u8]])
    ensures { Says (seen_sink E.written E.faults sink.old sink.new) (flat_map (λ t. t.now) texts.now) }
{
    let _ = put_all(sink, texts);
}
