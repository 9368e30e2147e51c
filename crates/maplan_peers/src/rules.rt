//! The rules on bad messages, read for these tests from the table of their kinds, over what an agent was seen to take and to
//! send.

use crate::spelled::{LIMIT, Said, Team, read_message};
use mp_list::OutOfMemory;
use mp_machine::{BadKind, Out};
use std::alloc::Global;

/// More than the number of an entry that an agent of these tests has.
const ENTRIES: u64 = 1_000_000;

/// What was seen of an agent.
#[derive(Drop)]
pub(crate) struct Seen {
    pub(crate) team: Team,
    /// For each token that it gave, whether its private goals hold in the set that the token stands for.
    met: Vec<bool>,
    /// How many states it sent.
    pub(crate) sent: u64,
    /// The number of the last snapshot that is whole here.
    pub(crate) last: u64,
    /// The number of the snapshot that is under way here.
    pub(crate) under_way: Option<u64>,
    /// The agents whose markers of the last snapshot have come, and those whose reports have.
    markers: Vec<u16>,
    reports: Vec<u16>,
    /// It told of a goal in its report of the last snapshot.
    goal: bool,
    /// A pick has come.
    picked: bool,
    /// The greatest number of actions behind an own one that it noted.
    noted: Option<u64>,
    /// Agent 1 has proved a plan to be cheapest.
    proved: bool,
    /// It takes no more steps.
    pub(crate) ended: bool,
}

/// The kind, where a message is of it.
fn bad_where(is_bad: bool, kind: BadKind) -> Option<BadKind> {
    if is_bad {
        return Some(kind);
    }
    None
}

impl Seen {
    /// An agent at its start, with whether its private goals hold there.
    pub(crate) fn new(alloc: Global, team: Team, met: bool) -> Result<Seen, OutOfMemory> {
        Ok(Seen {
            team,
            met: [met].to_vec(alloc)?,
            sent: 0,
            last: 0,
            under_way: None,
            markers: Vec::new(alloc),
            reports: Vec::new(alloc),
            goal: false,
            picked: false,
            noted: None,
            proved: false,
            ended: false,
        })
    }

    /// Whether a message of this agent may be taken.
    pub(crate) fn may_take(&self, from: u16) -> bool {
        !self.ended && from >= 1 && from <= self.team.agents && from != self.team.me
    }

    /// The kind byte and the number of a message of snapshots that this agent may send next, so that it is a good one: a marker, a
    /// report or a pick.
    pub(crate) fn next_of(&self, from: u16) -> (u8, u64) {
        match self.under_way {
            Some(current) if self.team.me == 1 && self.markers.as_slice().contains(&from) => {
                (3, current)
            }
            Some(current) => (2, current),
            None if self.goal && from == 1 && !self.picked => (4, self.last),
            None => (2, self.last.saturating_add(1)),
        }
    }

    /// Whether the private goals hold at the start.
    pub(crate) fn holds_at_start(&self) -> bool {
        match self.met.as_slice() {
            [first, ..] => *first,
            [] => false,
        }
    }

    /// Whether this agent proved no plan to be cheapest, although it would have to.
    fn is_early(&self) -> bool {
        self.team.me == 1 && !self.proved
    }

    /// Whether some action was noted that at least so many come after.
    fn is_noted(&self, back: u64) -> bool {
        match self.noted {
            Some(noted) => noted >= back,
            None => false,
        }
    }

    /// The kind of bad states that one with this token and met byte is of.
    fn of_state(&self, token: u64, met: bool) -> Option<BadKind> {
        for (place, own) in self.met.iter().enumerate() {
            if place as u64 == token {
                return bad_where(*own != met, BadKind::WrongByte);
            }
        }
        Some(BadKind::UnknownToken)
    }

    /// Whether a marker is out of place.
    fn is_strange_marker(&self, from: u16, number: u64) -> bool {
        match self.under_way {
            Some(current) => number != current || self.markers.as_slice().contains(&from),
            None => self.team.me == 1 || number != self.last.saturating_add(1),
        }
    }

    /// Whether a report is out of place.
    fn is_strange_report(&self, from: u16, number: u64) -> bool {
        match self.under_way {
            Some(current) => {
                self.team.me != 1 || number != current || self.reports.as_slice().contains(&from)
            }
            None => true,
        }
    }

    /// Whether a pick is out of place.
    fn is_strange_pick(&self, from: u16, number: u64) -> bool {
        if from != 1 || number != self.last || self.under_way.is_some() {
            return true;
        }
        !self.goal || self.picked || self.noted.is_some()
    }

    /// Whether a trace is out of place.
    fn is_strange_trace(&self, sent: u64, back: u64) -> bool {
        sent >= self.sent || self.is_noted(back) || self.is_early()
    }

    /// The kind of bad messages that one from this agent is of.
    pub(crate) fn kind_of(&self, from: u16, message: Option<Said>) -> Option<BadKind> {
        let Some(message) = message else {
            return Some(BadKind::NotASpelling);
        };
        match message {
            Said::State {
                sent: _,
                token,
                met,
            } => self.of_state(token, met),
            Said::Marker(number) => bad_where(
                self.is_strange_marker(from, number),
                BadKind::StrangeMarker,
            ),
            Said::Report { number, goal: _ } => bad_where(
                self.is_strange_report(from, number),
                BadKind::StrangeReport,
            ),
            Said::Pick(number) => {
                bad_where(self.is_strange_pick(from, number), BadKind::StrangePick)
            }
            Said::Trace { sent, back } => {
                bad_where(self.is_strange_trace(sent, back), BadKind::StrangeTrace)
            }
            Said::Length(length) => bad_where(
                self.is_noted(length) || self.is_early(),
                BadKind::StrangeLength,
            ),
            Said::Done => bad_where(from != 1, BadKind::StrangeDone),
        }
    }

    /// A snapshot begins.
    fn begin(&mut self, number: u64) {
        self.under_way = Some(number);
        self.markers.clear();
        self.reports.clear();
        self.goal = false;
    }

    /// Ends the snapshot, if all is in that this agent waits for: the markers of all others, and at agent 1 their reports.
    fn end_where_whole(&mut self, number: u64) {
        let others = (self.team.agents as usize).saturating_sub(1);
        let markers = self.markers.len() >= others;
        let reports = self.team.me != 1 || self.reports.len() >= others;
        if markers && reports {
            self.last = number;
            self.under_way = None;
        }
    }

    /// A marker was taken.
    fn take_marker(&mut self, from: u16, number: u64) -> Result<(), OutOfMemory> {
        if self.under_way.is_none() {
            self.begin(number);
        }
        self.markers.push(from)?;
        self.end_where_whole(number);
        Ok(())
    }

    /// A report was taken.
    fn take_report(&mut self, from: u16, number: u64) -> Result<(), OutOfMemory> {
        self.reports.push(from)?;
        self.end_where_whole(number);
        Ok(())
    }

    /// A good message was taken.
    pub(crate) fn take(&mut self, from: u16, message: Said) -> Result<(), OutOfMemory> {
        match message {
            Said::State { .. } => Ok(()),
            Said::Marker(number) => self.take_marker(from, number),
            Said::Report { number, goal: _ } => self.take_report(from, number),
            Said::Pick(_) => {
                self.picked = true;
                Ok(())
            }
            Said::Trace { .. } => Ok(()),
            Said::Length(_) => {
                self.ended = true;
                Ok(())
            }
            Said::Done => {
                self.ended = true;
                Ok(())
            }
        }
    }

    /// A state was sent.
    fn send_state(&mut self, sent: u64, token: u64, met: bool) -> Result<(), OutOfMemory> {
        if self.met.len() as u64 == token {
            self.met.push(met)?;
        }
        self.sent = sent.saturating_add(1);
        Ok(())
    }

    /// Actions were noted, with the numbers of actions behind them from one number on up to below another one.
    fn note(&mut self, from: u64, to: u64) {
        if to > from {
            self.noted = Some(to - 1);
        }
        self.proved = true;
    }

    /// A message was sent in a step from which actions are noted with at least so many behind them.
    fn send(&mut self, back: u64, message: Said) -> Result<(), OutOfMemory> {
        match message {
            Said::State { sent, token, met } => self.send_state(sent, token, met),
            Said::Marker(number) => {
                if self.team.me == 1 {
                    self.begin(number);
                }
                Ok(())
            }
            Said::Report { number: _, goal } => {
                self.goal = goal;
                Ok(())
            }
            Said::Pick(_) => {
                self.proved = true;
                Ok(())
            }
            Said::Trace { sent: _, back: to } => {
                self.note(back, to);
                Ok(())
            }
            Said::Length(length) => {
                self.note(back, length);
                self.ended = true;
                Ok(())
            }
            Said::Done => {
                self.ended = true;
                Ok(())
            }
        }
    }

    /// Messages were sent in a step, after this message was taken, if one was: whether all are spelled.
    pub(crate) fn send_all(
        &mut self,
        taken: Option<Said>,
        outs: &[Out],
    ) -> Result<bool, OutOfMemory> {
        let back = match taken {
            Some(Said::Trace { sent: _, back }) => back,
            _ => 0,
        };
        for out in outs {
            match read_message(self.team, out.bytes.as_slice()) {
                Some(message) => self.send(back, message)?,
                None => return Ok(false),
            }
        }
        Ok(true)
    }
}

/// Whether it takes the number of an entry to say whether a trace is out of place. Such traces are left to the scripts.
pub(crate) fn is_near_the_limit(message: Option<Said>) -> bool {
    match message {
        Some(Said::Trace { sent: _, back }) => back >= LIMIT - ENTRIES,
        _ => false,
    }
}
