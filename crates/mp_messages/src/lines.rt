//! The lines of a log, which name places in one area of bytes.

ghost use Rattle.std.specs.Prelude.{◌≡◌, ◌+◌, ◌++◌, ◌∷◌, ◌<◌, ◌↔◌, [], ℕ, List, length, IfOk, IfSome, IsTrue, OnErr, OnOk};
ghost use Rattle.mp_messages.specs.LogFields.{AreInside, IsInside, IsPlace, bytes_at, bytes_of, entries_in, entry_in, shown};

use crate::history::Kind;
use mp_list::OutOfMemory;
use mp_sets::Agent;

/// Where bytes stand in an area of bytes.
#[derive(Clone, Copy)]
pub(crate) struct Place {
    /// Where they begin.
    pub(crate) start: usize,
    /// Where they end.
    pub(crate) end: usize,
}

/// One line of a log.
#[derive(Clone, Copy)]
pub(crate) enum Line {
    /// An agent expanded a state or started a snapshot.
    Act(Agent, Kind),
    /// A message was put.
    Put {
        /// The sender.
        from: Agent,
        /// The receiver.
        to: Agent,
        /// Where the message stands.
        place: Place,
    },
    /// A message was taken.
    Took {
        /// The receiver.
        by: Agent,
        /// The sender.
        from: Agent,
        /// Where the message stands.
        place: Place,
    },
}

/// An entry of a log, whose bytes are lent.
#[derive(Clone, Copy)]
pub enum EntryView<'a> {
    /// An agent expanded a state or started a snapshot.
    Act(Agent, Kind),
    /// A message was put.
    Put {
        /// The sender.
        from: Agent,
        /// The receiver.
        to: Agent,
        /// The message.
        bytes: &'a [u8],
    },
    /// A message was taken.
    Took {
        /// The receiver.
        by: Agent,
        /// The sender.
        from: Agent,
        /// The message.
        bytes: &'a [u8],
    },
}

/// The bytes at a place.
fn bytes_at(area: &[u8], place: Place) -> &[u8]
    requires { IsPlace (length area.now) place }
    ensures { result.now ≡ bytes_at area.now place }
{
    &area[place.start..place.end]
}

/// What a line shows.
pub(crate) fn view_of(area: &[u8], line: Line) -> EntryView<'_>
    requires { IsInside (length area.now) line }
    ensures { shown result ≡ entry_in area.now line }
{
    match line {
        Line::Act(agent, kind) => EntryView::Act(agent, kind),
        Line::Put { from, to, place } => EntryView::Put {
            from,
            to,
            bytes: bytes_at(area, place),
        },
        Line::Took { by, from, place } => EntryView::Took {
            by,
            from,
            bytes: bytes_at(area, place),
        },
    }
}

/// Where the message of a line stands, and no bytes where it has none.
fn place_of(line: Line) -> Place
    ensures bytes { (area : List ℕ) → bytes_at area result ≡ bytes_of (entry_in area line) }
    ensures inside { (size : ℕ) → IsInside size line → IsPlace size result }
{
    match line {
        Line::Act(_, _) => Place { start: 0, end: 0 },
        Line::Put { place, .. } => place,
        Line::Took { place, .. } => place,
    }
}

/// Adds a line whose message is in the area.
pub(crate) fn add_line(lines: &mut Vec<Line>, area: &[u8], line: Line) -> Result<(), OutOfMemory>
    requires lines { AreInside area.now lines.old.items }
    requires line { IsInside (length area.now) line }
    ensures inside { AreInside area.now lines.new.items }
    ensures ok { OnOk result (entries_in area.now lines.new.items
        ≡ entries_in area.now lines.old.items ++ entry_in area.now line ∷ []) }
    ensures err { OnErr result (entries_in area.now lines.new.items ≡ entries_in area.now lines.old.items) }
{
    lines.push(line)?;
    Ok(())
}

/// Adds bytes to the area, and tells where they stand. What the lines show stays.
pub(crate) fn add_bytes(
    lines: &[Line],
    area: &mut Vec<u8>,
    bytes: &[u8],
) -> Result<Place, OutOfMemory>
    requires { AreInside area.old.items lines.now }
    ensures inside { AreInside area.new.items lines.now }
    ensures same { entries_in area.new.items lines.now ≡ entries_in area.old.items lines.now }
    ensures place { IfOk result (IsPlace (length area.new.items)) }
    ensures bytes { IfOk result (λ place. bytes_at area.new.items place ≡ bytes.now) }
{
    let start = area.len();
    area.extend_from_slice(bytes)?;
    Ok(Place {
        start,
        end: area.len(),
    })
}

/// Whether these are the bytes at a place.
fn are_bytes_at(area: &[u8], place: Place, bytes: &[u8]) -> bool
    requires { IsPlace (length area.now) place }
    ensures { IsTrue result ↔ (bytes_at area.now place ≡ bytes.now) }
{
    bytes_at(area, place) == bytes
}

/// The place of the message of a line, where it consists of these bytes.
fn place_there(lines: &[Line], area: &[u8], at: usize, bytes: &[u8]) -> Option<Place>
    requires { AreInside area.now lines.now }
    ensures place { IfSome result (IsPlace (length area.now)) }
    ensures bytes { IfSome result (λ place. bytes_at area.now place ≡ bytes.now) }
{
    if at >= lines.len() {
        return None;
    }
    let place = place_of(lines[at]);
    if are_bytes_at(area, place, bytes) {
        return Some(place);
    }
    None
}

/// Tells where bytes stand that may be the message of a line, and adds them to the area where they are not. What the lines
/// show stays.
pub(crate) fn add_bytes_once(
    lines: &[Line],
    area: &mut Vec<u8>,
    at: usize,
    bytes: &[u8],
) -> Result<Place, OutOfMemory>
    requires { AreInside area.old.items lines.now }
    ensures inside { AreInside area.new.items lines.now }
    ensures same { entries_in area.new.items lines.now ≡ entries_in area.old.items lines.now }
    ensures place { IfOk result (IsPlace (length area.new.items)) }
    ensures bytes { IfOk result (λ place. bytes_at area.new.items place ≡ bytes.now) }
{
    if let Some(place) = place_there(lines, area.as_slice(), at, bytes) {
        return Ok(place);
    }
    add_bytes(lines, area, bytes)
}
