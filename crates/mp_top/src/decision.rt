//! What is decided about a request before anything is written: the report, the text and the status of its outcome.

ghost use Rattle.std.specs.Prelude.{◌≡◌, ◌++◌, ◌∷◌, [], IfOk, if◌then◌else◌};
ghost use Rattle.mp_text.specs.Trace.{trace_text as trace_text_of};
ghost use Rattle.mp_top.specs.Outcome.{answer_status, behind_trace};

use crate::status::Status;
use mp_list::{List, OutOfMemory};
use mp_messages::{Bytes, Log, Views};
use mp_text::trace_text;
use mp_words::Choice;
use mp_world::Answer;
use std::alloc::Global;

/// How agents search.
#[derive(Clone, Copy)]
pub(crate) struct Search {
    /// The heuristic of all agents.
    pub(crate) heuristic: Choice,
    /// How many entries an agent may expand: 1 to 10,000,000.
    pub(crate) limit: u64,
}

/// What the report keeps, what is printed in two pieces, and how the call ends once that is written.
#[derive(Drop)]
pub(crate) struct Decision {
    pub(crate) views: Views,
    pub(crate) log: Log,
    pub(crate) answer: Answer,
    pub(crate) before: Bytes,
    pub(crate) text: Bytes,
    pub(crate) status: Status,
}

/// The status of a call that printed this answer.
pub(crate) fn status_of_answer(answer: Answer) -> Status
    ensures { result ≡ answer_status answer }
{
    match answer {
        Answer::Nothing => Status::Unfinished,
        Answer::Solved { .. } => Status::Solved,
        Answer::Unsolvable => Status::No,
        Answer::Undecided => Status::Undecided,
    }
}

/// The line behind a trace.
fn line_behind(answer: Answer) -> &'static [u8]
    ensures { result.now ≡ behind_trace answer ++ 10 ∷ [] }
{
    match answer {
        Answer::Nothing => b"unfinished\n",
        Answer::Solved { .. } => b"answer\n",
        Answer::Unsolvable => b"answer\n",
        Answer::Undecided => b"answer\n",
    }
}

/// The trace of a log and the line behind it.
fn whole_trace(alloc: Global, log: &Log, answer: Answer) -> Result<Bytes, OutOfMemory>
    ensures { IfOk result (λ text. text ≡ trace_text_of log.now ++ (behind_trace answer ++ 10 ∷ [])) }
{
    let mut text = trace_text(alloc, log)?;
    text.extend_from_slice(line_behind(answer))?;
    Ok(text)
}

/// What comes before the text of an answer: the trace and the line behind it, where that is asked for.
pub(crate) fn trace_before(
    alloc: Global,
    log: &Log,
    answer: Answer,
    trace: bool,
) -> Result<Bytes, OutOfMemory>
    ensures { IfOk result (λ text. text ≡ (if trace then trace_text_of log.now ++ (behind_trace answer ++ 10 ∷ []) else [])) }
{
    if trace {
        return whole_trace(alloc, log, answer);
    }
    Ok(List::new(alloc))
}
