//! The measures of a picture, in pixels, and what it begins with.

use crate::columns::Column;
use crate::shapes::{Area, begin_text, end_text, push_area, push_attribute};
use crate::writing::push_number;
use mp_list::OutOfMemory;
use mp_messages::Bytes;

/// What is left free at the left and the right.
pub(crate) const MARGIN: u64 = 16;

/// Where the lanes begin, below the title and the numbers of the steps.
pub(crate) const TOP: u64 = 72;

/// How high a lane is.
pub(crate) const LANE: u64 = 52;

/// What is left free below the lanes.
const BELOW: u64 = 36;

/// The least width of a picture, which holds the title.
const NARROWEST: u64 = 840;

/// How the classes of shapes look.
const STYLE: &str = "<style>
text { font-family: 'DejaVu Sans Mono', monospace; fill: #1a1a1a }
.title { font-size: 15px }
.agent { font-size: 13px }
.step { font-size: 13px; text-anchor: middle; fill: #555555 }
.name { font-size: 13px; text-anchor: middle }
.args { font-size: 11px; text-anchor: middle; fill: #333333 }
.page { fill: #ffffff }
.lane { fill: #f1f3f6 }
.action { fill: #dcebfa; stroke: #4a7eb0; stroke-width: 1 }
.chained { fill: #ffe9c7; stroke: #b35900; stroke-width: 3 }
.chain { fill: none; stroke: #b35900; stroke-width: 3 }
</style>
";

/// The top of the lane of the agent of a number, counted from 1.
pub(crate) fn top_of(agent: u16) -> u64 {
    LANE.saturating_mul(u64::from(agent.saturating_sub(1)))
        .saturating_add(TOP)
}

/// Where the lanes of so many agents end.
pub(crate) fn bottom_of(agents: u16) -> u64 {
    LANE.saturating_mul(u64::from(agents)).saturating_add(TOP)
}

/// Where a picture of these columns ends on the right.
fn width_of(columns: &[Column]) -> u64 {
    match columns.last() {
        Some(last) => last.right().saturating_add(MARGIN).max(NARROWEST),
        None => NARROWEST,
    }
}

/// The whole picture of these columns and of so many agents.
pub(crate) fn page_of(columns: &[Column], agents: u16) -> Area {
    Area {
        left: 0,
        top: 0,
        width: width_of(columns),
        height: bottom_of(agents).saturating_add(BELOW),
    }
}

/// Appends the tag that a picture begins with, what its classes look like, and its ground.
pub(crate) fn begin_page(out: &mut Bytes, page: Area) -> Result<(), OutOfMemory> {
    out.extend_from_slice(b"<svg xmlns=\"http://www.w3.org/2000/svg\" version=\"1.1\"")?;
    push_attribute(out, b"width", page.width)?;
    push_attribute(out, b"height", page.height)?;
    out.extend_from_slice(b">\n")?;
    out.extend_from_slice(STYLE.as_bytes())?;
    push_area(out, b"page", page)
}

/// Appends how many there are of something, and its word.
fn push_count(
    out: &mut Bytes,
    count: usize,
    one: &[u8],
    several: &[u8],
) -> Result<(), OutOfMemory> {
    push_number(out, count as u64)?;
    if count == 1 {
        return out.extend_from_slice(one);
    }
    out.extend_from_slice(several)
}

/// Appends the line that tells the cost of a plan, how many actions and steps it has, and what the thick boxes are.
pub(crate) fn push_title(
    out: &mut Bytes,
    cost: u64,
    actions: usize,
    steps: usize,
) -> Result<(), OutOfMemory> {
    begin_text(out, b"title", MARGIN, 30)?;
    out.extend_from_slice(b"cost ")?;
    push_number(out, cost)?;
    out.extend_from_slice(b", ")?;
    push_count(out, actions, b" action", b" actions")?;
    out.extend_from_slice(b" in ")?;
    push_count(out, steps, b" step", b" steps")?;
    out.extend_from_slice(b"; in the thick chain each action waits for the one before")?;
    end_text(out)
}
