//! The text of a run: each event, and the messages that it put.

ghost use Rattle.std.specs.Prelude.{◌≡◌, ◌++◌, ◌∷◌, [], Some, drop, IfOk, OnOk};
ghost use Rattle.std.specs.List.{filter_map};
ghost use Rattle.std.specs.Option.{option_map};
ghost use Rattle.mp_messages.specs.History.{agent_of, event_of as event_of_entry};
ghost use Rattle.mp_messages.specs.LogFields.{shown};
ghost use Rattle.mp_text.specs.Lines.{text_of_lines};
ghost use Rattle.mp_text.specs.Trace.{event_line, message_line, puts_before_event, put_line, lines_of_event, lines_if_event, trace_text as trace_text_of};

use crate::write::{push_agent, push_bytes, push_hexadecimal};
use mp_list::{List, OutOfMemory};
use mp_messages::{Bytes, EntryView, Event, Kind, Log};
use mp_sets::Agent;
use std::alloc::Global;

/// Appends the line of an event.
#[tactic(auto, unfolding(crate::specs::Trace::event_line))]
fn push_event(text: &mut Bytes, event: Event) -> Result<(), OutOfMemory>
    ensures { OnOk result (text.new ≡ text.old ++ (event_line event ++ 10 ∷ [])) }
{
    match event {
        Event::Expand(agent) => {
            push_bytes(text, b"expand ")?;
            push_agent(text, agent)?;
        }
        Event::Take { by, from } => {
            push_bytes(text, b"take ")?;
            push_agent(text, by)?;
            push_bytes(text, b" ")?;
            push_agent(text, from)?;
        }
        Event::Start => push_bytes(text, b"start")?,
    }
    push_bytes(text, b"\n")
}

/// Appends the line of a message.
#[tactic(auto, unfolding(crate::specs::Trace::message_head))]
fn push_message(
    alloc: Global,
    text: &mut Bytes,
    from: Agent,
    to: Agent,
    bytes: &[u8],
) -> Result<(), OutOfMemory>
    ensures { OnOk result (text.new ≡ text.old ++ (message_line from to bytes.now ++ 10 ∷ [])) }
{
    push_bytes(text, b"  ")?;
    push_agent(text, from)?;
    push_bytes(text, b">")?;
    push_agent(text, to)?;
    push_bytes(text, b" ")?;
    push_hexadecimal(alloc, text, bytes)?;
    push_bytes(text, b"\n")
}

/// Appends the lines of the messages that an agent puts before its next event, from a place of the log on. (Over the whole
/// of a log these walks look at each entry once for each agent, and there are at most 16.)
fn push_puts(
    alloc: Global,
    text: &mut Bytes,
    agent: Agent,
    log: &Log,
    from_place: usize,
) -> Result<(), OutOfMemory>
    ensures { OnOk result (text.new ≡ text.old
        ++ text_of_lines (filter_map put_line (puts_before_event agent (drop from_place log.now)))) }
{
    for at in from_place..log.len() {
        match log.entry(at) {
            EntryView::Put { from, to, bytes } => {
                if from == agent {
                    push_message(alloc, text, from, to, bytes)?;
                }
            }
            EntryView::Act(actor, _) => {
                if actor == agent {
                    return Ok(());
                }
            }
            EntryView::Took { by, .. } => {
                if by == agent {
                    return Ok(());
                }
            }
        }
    }
    Ok(())
}

/// The agent of an entry.
fn agent_of_entry(entry: &EntryView<'_>) -> Agent
    ensures { result ≡ agent_of (shown entry.now) }
{
    match entry {
        EntryView::Act(agent, _) => *agent,
        EntryView::Put { from, .. } => *from,
        EntryView::Took { by, .. } => *by,
    }
}

/// What an entry is as an event.
fn event_of(entry: &EntryView<'_>) -> Option<Event>
    ensures { result ≡ event_of_entry (shown entry.now) }
{
    match entry {
        EntryView::Act(agent, Kind::Expand) => Some(Event::Expand(*agent)),
        EntryView::Act(_, Kind::Start) => Some(Event::Start),
        EntryView::Put { .. } => None,
        EntryView::Took { by, from, .. } => Some(Event::Take {
            by: *by,
            from: *from,
        }),
    }
}

/// Appends the lines of an entry of a log, whose place is before another one: none where it is no event.
fn push_entry(
    alloc: Global,
    text: &mut Bytes,
    entry: &EntryView<'_>,
    log: &Log,
    next: usize,
) -> Result<(), OutOfMemory>
    ensures { OnOk result (text.new ≡ text.old
        ++ text_of_lines
        (lines_if_event (agent_of (shown entry.now)) (drop next log.now) (event_of_entry (shown entry.now)))) }
{
    let Some(event) = event_of(entry) else {
        return Ok(());
    };
    push_event(text, event)?;
    push_puts(alloc, text, agent_of_entry(entry), log, next)
}

/// The text of a run: for each event of the log its line, and then a line for each message that it
/// put. Refuses only for want of memory.
pub fn trace_text(alloc: Global, log: &Log) -> Result<Bytes, OutOfMemory>
    ensures { IfOk result (λ text. text ≡ trace_text_of log.now) }
{
    let mut text = List::new(alloc);
    for at in 0..log.len() {
        push_entry(alloc, &mut text, &log.entry(at), log, at + 1)?;
    }
    Ok(text)
}
