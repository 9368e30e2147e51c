//! Markers and reports at one agent of a small team.

ghost use Rattle.std.specs.Prelude.{◌≡◌};
ghost use Rattle.mp_snapshot.specs.Rules.{IsSameTeam};

use crate::calls::{Answers, Call, Out, run_lines};
use crate::lines::{long, number_at, part, short};
use crate::states::agent_at;
use mp_list::OutOfMemory;
use mp_messages::Findings;
use mp_sets::Agent;
use mp_snapshot::Snapshot;
use std::alloc::Global;

/// An agent's part in the snapshots of its team.
#[derive(Drop)]
struct Member {
    snapshot: Snapshot,
    me: Agent,
    agents: u16,
    ghost own: { snapshot.me ≡ me },
    ghost team: { snapshot.agents ≡ agents },
}

/// The findings of a text, in the parts behind its first one.
fn findings(text: &str) -> Findings {
    Findings {
        number: long(part(text, 1), 0),
        least: number_at(part(text, 2), 0),
        under_way: number_at(part(text, 3), 0),
        goal: number_at(part(text, 4), 0),
        spent: long(part(text, 5), 0) > 0,
    }
}

/// Takes what comes from another agent, and adds what that answers.
fn take(
    snapshot: &mut Snapshot,
    me: Agent,
    agents: u16,
    call: Call<'_>,
    out: &mut Out,
) -> Result<(), OutOfMemory>
    requires me { snapshot.old.me ≡ me }
    requires agents { snapshot.old.agents ≡ agents }
    ensures { IsSameTeam snapshot.old snapshot.new }
{
    let from = agent_at(call.rest, 0);
    if from == me || from.number() > agents {
        return out.answer_not_read();
    }
    match call.word {
        "marker" => out.answer(&snapshot.marker(from, long(call.rest, 1), findings(call.rest))),
        "report" => out.answer(&snapshot.report(from, findings(call.rest))),
        _ => {
            snapshot.state_seen(from, long(call.rest, 1));
            Ok(())
        }
    }
}

/// Starts a snapshot, where that may be done.
fn start(snapshot: &mut Snapshot, me: Agent, mine: Findings) -> Result<(), OutOfMemory>
    requires { snapshot.old.me ≡ me }
    ensures { IsSameTeam snapshot.old snapshot.new }
{
    if me.number() == 1 && !snapshot.is_under_way() && snapshot.number() < 1000 {
        snapshot.start(mine);
    }
    Ok(())
}

impl Answers for Member {
    fn answer(&mut self, _alloc: Global, call: Call<'_>, out: &mut Out) -> Result<(), OutOfMemory> {
        match call.word {
            "start" => start(&mut self.snapshot, self.me, findings(call.rest)),
            "shown" => {
                out.show(&(self.snapshot.is_under_way(), self.snapshot.number()));
                out.show(&self.snapshot.own());
                out.answer(&self.snapshot.verdict())
            }
            _ => take(&mut self.snapshot, self.me, self.agents, call, out),
        }
    }
}

/// Runs the calls of an agent before the first snapshot of its team.
pub(crate) fn run_snapshot(
    alloc: Global,
    head: &str,
    lines: &str,
    out: &mut Out,
) -> Result<(), OutOfMemory> {
    let (me, agents) = (agent_at(head, 0), short(head, 1).min(16) as u16);
    if me.number() > agents {
        return Ok(());
    }
    let snapshot = Snapshot::new(me, agents);
    let mut member = Member {
        snapshot,
        me,
        agents,
    };
    run_lines(alloc, &mut member, lines, out)
}
