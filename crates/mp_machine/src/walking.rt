//! How the plan is walked back.

ghost use Rattle.std.specs.Prelude.{◌≡◌, ◌+◌, ◌<◌, ◌≤◌, ◌^◌, ◌++◌, true, false, length, map, OnOk};
ghost use Rattle.mp_trail.specs.Share.{fits, share};
ghost use Rattle.mp_machine.specs.MemberFields.{record_of, HasStepped, IsReady, IsSameMember};
ghost use Rattle.mp_machine.specs.Outgoing.{in_bytes, others, to_each};
ghost use Rattle.mp_machine.specs.Taking.{knows_of_no_plan};
ghost use Rattle.mp_machine.specs.WalkingBack.{walked, walked_from_goal};

use crate::event::Ending;
use crate::member::Member;
use crate::outgoing::{Outs, send, send_to_others};
use mp_list::OutOfMemory;
use mp_messages::Message;
use mp_search::Search;
use mp_task::Heuristic;
use mp_trail::Walked;

/// The plan has a length, so that the agent knows its share of it, and ends.
pub(crate) fn solve(member: &mut Member, length: u64) -> Result<(), OutOfMemory>
    requires { fits length member.old.trail ≡ true }
    ensures member { OnOk result (member.new ≡ record member.old {
      ending = Ending.Solved length;
      share = share length member.old.trail;
    }) }
    ensures team { IsSameMember member.old member.new }
{
    member.share = member.trail.share(length)?;
    member.ending = Ending::Solved { length };
    Ok(())
}

/// The plan has a length: the agent ends, and tells all others.
fn solve_and_tell(member: &mut Member, length: u64, outs: &mut Outs) -> Result<(), OutOfMemory>
    requires fits { fits length member.old.trail ≡ true }
    requires small { length < 2 ^ 60 }
    requires team { member.old.agents ≤ 16 }
    ensures out { OnOk result (outs.new
        ≡ outs.old ++ map in_bytes
        (to_each (others member.old.me member.old.agents) (Message.Length length))) }
    ensures member { OnOk result (member.new ≡ record member.old {
      ending = Ending.Solved length;
      share = share length member.old.trail;
    }) }
    ensures team { IsSameMember member.old member.new }
{
    solve(member, length)?;
    let message = Message::Length(length);
    send_to_others(member.alloc, outs, member.me, member.agents, &message)
}

/// Walks back from an entry that so many actions of the plan come after.
pub(crate) fn walk<H: Heuristic>(
    search: &Search<H>,
    member: &mut Member,
    entry: u64,
    back: u64,
    outs: &mut Outs,
) -> Result<(), OutOfMemory>
    requires ready { IsReady search.now member.old }
    requires entry { entry < length search.now.done.kept.entries }
    requires bounded { back + entry < 2 ^ 60 }
    requires fits { fits back member.old.trail ≡ true }
    requires plan { knows_of_no_plan (record_of search.now member.old) ≡ false }
    ensures step { OnOk result (HasStepped (walked (record_of search.now member.old) entry back)
        outs.old outs.new (record_of search.now member.new)) }
    ensures ready { OnOk result (IsReady search.now member.new) }
    ensures team { IsSameMember member.old member.new }
{
    match member.trail.walk(search.store(), entry, back)? {
        Walked::Root { length } => solve_and_tell(member, length, outs),
        Walked::Hop { agent, sent, back } => {
            let message = Message::Trace { sent, back };
            send(member.alloc, outs, agent, &message)
        }
    }
}

/// Begins to walk back at the goal entry that was noted.
pub(crate) fn walk_from_goal<H: Heuristic>(
    search: &Search<H>,
    member: &mut Member,
    outs: &mut Outs,
) -> Result<(), OutOfMemory>
    requires ready { IsReady search.now member.old }
    requires fits { fits 0 member.old.trail ≡ true }
    requires plan { knows_of_no_plan (record_of search.now member.old) ≡ false }
    ensures step { OnOk result (HasStepped (walked_from_goal (record_of search.now member.old))
        outs.old outs.new (record_of search.now member.new)) }
    ensures ready { OnOk result (IsReady search.now member.new) }
    ensures team { IsSameMember member.old member.new }
{
    match member.goal {
        Some(entry) => walk(search, member, entry, 0, outs),
        None => Ok(()),
    }
}
