//! One agent's part in the snapshots of its team.

ghost use Rattle.std.specs.Prelude.{◌≡◌, ◌+◌, ◌<◌, ◌≤◌, ◌^◌, ◌↔◌, false, not, IfOk, OnErr, IsErr, IsTrue, if◌then◌else◌};
ghost use Rattle.std.specs.List.{list_all};
ghost use Rattle.mp_snapshot.specs.Rules.{IsAnother, IsSameTeam, before_all, begun, own, after_marker, after_state, after_report, is_whole, is_complete, is_under_way, is_strange_marker, is_strange_report, verdict};

use crate::marked::{Marked, Strange};
use crate::verdict::Verdict;
use crate::verdict_rule::{lesser, verdict_of};
use mp_messages::Findings;
use mp_sets::Agent;
use std::marker::Model;

/// The findings of an agent that has no open entry, no goal entry and no state under way.
const NOTHING: Findings = Findings {
    number: 0,
    least: None,
    under_way: None,
    goal: None,
    spent: false,
};

/// The snapshots of a team as one agent keeps them: the last one that began here, whose markers of it have
/// come, and what is known of the agents' findings. It takes no memory beside itself.
pub struct Snapshot {
    me: Agent,
    agents: u16,
    number: u64,
    /// By agent, whether its marker has come; true for the agent itself.
    marked: [bool; 16],
    /// By agent, whether its findings are here; true for the agent itself.
    reported: [bool; 16],
    found: [Findings; 16],
}

impl Drop for Snapshot {
    fn drop(self) {
        let Snapshot {
            me: _,
            agents: _,
            number: _,
            marked: _,
            reported: _,
            found: _,
        } = self;
    }
}

impl Model for Snapshot {
    ghost use Rattle.mp_snapshot.specs.Notes.{Notes};

    ghost Value = { Notes };

    ghost use Rattle.mp_snapshot.specs.NotesFields.{notes, IsOfTeam};

    ghost view = { notes };

    ghost invariant = { IsOfTeam };
}

/// The place of an agent in the lists.
fn place(agent: Agent) -> usize
    ensures place { result + 1 ≡ agent }
    ensures small { result < 16 }
{
    usize::from(agent.number()) - 1
}

/// Whether all of the first flags are true.
fn all_true(flags: &[bool]) -> bool
    ensures { result ≡ list_all (λ b. b) flags.now }
{
    match flags {
        [] => true,
        [flag, others @ ..] => *flag && all_true(others),
    }
}

impl Snapshot {
    /// An agent before the first snapshot of its team.
    pub fn new(me: Agent, agents: u16) -> Snapshot
        requires team { agents ≤ 16 }
        requires me { me ≤ agents }
        ensures { result ≡ before_all me agents }
    {
        Snapshot {
            me,
            agents,
            number: 0,
            marked: [false; 16],
            reported: [false; 16],
            found: [NOTHING; 16],
        }
    }

    /// Whether no marker of the last snapshot is awaited.
    fn is_whole(&self) -> bool
        ensures { result ≡ is_whole self.now }
    {
        all_true(&self.marked[..usize::from(self.agents)])
    }

    /// Whether the findings of all agents are here.
    fn is_complete(&self) -> bool
        ensures { result ≡ is_complete self.now }
    {
        self.is_whole() && all_true(&self.reported[..usize::from(self.agents)])
    }

    /// Whether a snapshot is under way: at agent 1 from its start until the findings of all agents are here, at
    /// another agent from its first marker until the last one.
    pub fn is_under_way(&self) -> bool
        ensures { result ≡ is_under_way self.now }
    {
        if self.number == 0 {
            return false;
        }
        if self.me.number() == 1 {
            !self.is_complete()
        } else {
            !self.is_whole()
        }
    }

    /// The number of the last snapshot that began here, and 0 before the first.
    pub fn number(&self) -> u64
        ensures { result ≡ self.now.number }
    {
        self.number
    }

    /// The agent's own findings of it.
    pub fn own(&self) -> Findings
        ensures { result ≡ own self.now }
    {
        self.found[place(self.me)]
    }

    /// The snapshot of this number begins: notes what the agent found.
    fn begin(&mut self, number: u64, mine: Findings)
        ensures { self.new ≡ begun self.old number mine }
    {
        let at = place(self.me);
        self.number = number;
        self.marked = [false; 16];
        self.marked[at] = true;
        self.reported = [false; 16];
        self.reported[at] = true;
        self.found = [NOTHING; 16];
        self.found[at] = Findings {
            number,
            under_way: None,
            ..mine
        };
    }

    /// Agent 1 begins the next snapshot with what it found. Of `mine` the number and the states under way do not
    /// count: the number is that of the snapshot, and states are counted from now on.
    pub fn start(&mut self, mine: Findings)
        requires first { self.old.me ≡ 1 }
        requires free { is_under_way self.old ≡ false }
        requires room { self.old.number + 1 < 2 ^ 60 }
        ensures notes { self.new ≡ begun self.old (self.old.number + 1) mine }
        ensures team { IsSameTeam self.old self.new }
    {
        self.begin(self.number + 1, mine);
    }

    /// Whether the marker of a snapshot comes from an agent out of turn.
    fn is_strange_marker(&self, from: Agent, number: u64) -> bool
        requires { IsAnother self.now from }
        ensures { result ≡ is_strange_marker self.now from number }
    {
        if self.is_under_way() {
            number != self.number || self.marked[place(from)]
        } else {
            self.me.number() == 1 || self.number == u64::MAX || number != self.number + 1
        }
    }

    /// A marker has come from another agent of the team. Where no snapshot is under way, it begins here with
    /// what the agent found. A strange marker changes nothing.
    pub fn marker(&mut self, from: Agent, number: u64, mine: Findings) -> Result<Marked, Strange>
        requires { IsAnother self.old from }
        ensures strange { IsErr result ↔ IsTrue (is_strange_marker self.old from number) }
        ensures same { OnErr result (self.new ≡ self.old) }
        ensures notes { IfOk result (λ _. self.new ≡ after_marker self.old from number mine) }
        ensures team { IsSameTeam self.old self.new }
        ensures first { IfOk result (λ marked. marked.first ≡ not (is_under_way self.old)) }
        ensures whole { IfOk result (λ marked.
            marked.whole ≡ (if is_whole self.new then Some (own self.new) else None)) }
    {
        if self.is_strange_marker(from, number) {
            return Err(Strange);
        }
        let first = !self.is_under_way();
        if first {
            self.begin(number, mine);
        }
        self.marked[place(from)] = true;
        let whole = if self.is_whole() {
            Some(self.own())
        } else {
            None
        };
        Ok(Marked { first, whole })
    }

    /// A state of this cost plus heuristic value has come from another agent of the team. It counts exactly where
    /// that agent's marker is awaited.
    pub fn state_seen(&mut self, from: Agent, f: u64)
        requires { IsAnother self.old from }
        ensures notes { self.new ≡ after_state self.old from f }
        ensures team { IsSameTeam self.old self.new }
    {
        if self.number > 0 && !self.marked[place(from)] {
            let own = &mut self.found[place(self.me)];
            own.under_way = lesser(own.under_way, Some(f));
        }
    }

    /// The findings of another agent of the team have come. A strange report changes nothing.
    pub fn report(&mut self, from: Agent, findings: Findings) -> Result<(), Strange>
        requires { IsAnother self.old from }
        ensures strange { IsErr result ↔ IsTrue (is_strange_report self.old from findings) }
        ensures same { OnErr result (self.new ≡ self.old) }
        ensures notes { IfOk result (λ _. self.new ≡ after_report self.old from findings) }
        ensures team { IsSameTeam self.old self.new }
    {
        let at = place(from);
        if self.me.number() != 1
            || !self.is_under_way()
            || findings.number != self.number
            || self.reported[at]
        {
            return Err(Strange);
        }
        self.reported[at] = true;
        self.found[at] = findings;
        Ok(())
    }

    /// The verdict: none exactly where own findings are not whole or a report is missing.
    pub fn verdict(&self) -> Option<Verdict>
        ensures { result ≡ verdict self.now }
    {
        if self.number == 0 || !self.is_complete() {
            return None;
        }
        Some(verdict_of(&self.found[..usize::from(self.agents)]))
    }
}
