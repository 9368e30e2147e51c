//! Schedules that are read from their texts.

ghost use Rattle.std.specs.Prelude.{◌≡◌, ◌≤◌, Ok, IfOk, IfErr};
ghost use Rattle.mp_text.specs.declared.schedule.LineRefusal.TheVariants.{OutOfMemory as NoMemory};
ghost use Rattle.mp_text.specs.Schedule.{schedule_in, Refuses};

use crate::line::{event_in, first_line, is_end, is_message};
use mp_list::{List, OutOfMemory};
use mp_messages::Event;
use std::alloc::Global;
use thiserror::Error;

/// An event of a schedule, and the line where it stands.
#[derive(Clone, Copy, Debug, PartialEq, Eq)]
pub struct EventLine {
    pub event: Event,
    /// The number of its line, from 1.
    pub line: u64,
}

/// The events of a schedule in their order.
pub type EventLines = List<EventLine>;

/// Why a text was not read.
#[derive(Clone, Copy, Debug, PartialEq, Eq, Error)]
pub enum LineRefusal {
    /// The line of this number, from 1, is the first that is not of the form.
    #[error("line {0}")]
    Line(u64),
    /// No memory was left.
    #[error("out of memory")]
    OutOfMemory,
}

impl From<OutOfMemory> for LineRefusal {
    ghost from_gives = { λ _ e. e ≡ NoMemory };

    fn from(_e: OutOfMemory) -> LineRefusal {
        LineRefusal::OutOfMemory
    }
}

/// The schedule of a text, for a team of so many agents. Its lines are those of a trace: an event,
/// or a message, which is passed over. A line `answer` or `unfinished` ends it, and what follows is
/// not read. The last line may lack its line feed, and an empty text is an empty schedule. `Line`
/// comes exactly where a line before the end is not of this form, with the number of the first such
/// line.
pub fn read_schedule(alloc: Global, text: &[u8], agents: u16) -> Result<EventLines, LineRefusal>
    requires { agents ≤ 16 }
    ensures found { IfOk result (λ events. schedule_in agents text.now ≡ Ok events) }
    ensures refused { IfErr result (λ e. Refuses e (schedule_in agents text.now)) }
{
    let mut events = List::new(alloc);
    let mut number = 1;
    let mut rest = text;
    while let Some((line, later)) = first_line(rest) {
        if is_end(line) {
            return Ok(events);
        }
        match event_in(line, agents) {
            Some(event) => events.push(EventLine {
                event,
                line: number,
            })?,
            None => {
                if !is_message(line, agents) {
                    return Err(LineRefusal::Line(number));
                }
            }
        }
        number += 1;
        rest = later;
    }
    Ok(events)
}
