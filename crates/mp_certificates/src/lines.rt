//! Lines of a certificate, read from the front of a text.

ghost use Rattle.std.specs.Prelude.{◌≡◌, ◌+◌, ◌≤◌, IfSome, OnOk, length};
ghost use Rattle.std.specs.Option.{option_map};
ghost use Rattle.mp_audit.specs.Flat.{entry_of};
ghost use Rattle.mp_certificates.specs.Reading.{Gives, cost_at, entry_at, head_at};

use crate::fact_lists::entry_lists;
use crate::numbers::{MOST, behind, behind_all, number};
use crate::unread::Unread;
use mp_audit::FlatLists;
use mp_sets::Agent;
use mp_task::Task;

/// The agent and the bound of an entry in a team of so many, and what follows them.
#[tactic(auto, unfolding(crate::specs::Reading::head_at))]
fn head(agents: u64, text: &[u8]) -> Option<((Agent, u64), &[u8])>
    requires { agents ≤ 16 }
    ensures { option_map (λ x. ((x.0.0, x.0.1), x.1.now)) result ≡ head_at agents text.now }
{
    let (agent, rest) = number(1, agents + 1, text)?;
    let rest = behind(rest, b' ')?;
    let (bound, rest) = number(1, MOST + 1, rest)?;
    Some(((Agent::new(agent as u16)?, bound), rest))
}

/// An entry that fits these tasks: its agent and its bound, while its lists are read in place of those in `lists`; and what
/// follows its line.
#[tactic(auto, unfolding(crate::specs::Reading::entry_at))]
pub(crate) fn entry<'a>(
    tasks: &[Task],
    text: &'a [u8],
    numbers: &mut Vec<u32>,
    lists: &mut FlatLists,
) -> Result<((Agent, u64), &'a [u8]), Unread>
    requires { length tasks.now ≤ 16 }
    ensures entry { Gives (λ x. (entry_of x.0.0 x.0.1 lists.new, x.1.now)) result (entry_at tasks.now text.now) }
    ensures counted { OnOk result (length lists.new ≡ length tasks.now + 1) }
{
    let Some((head, rest)) = head(tasks.len() as u64, text) else {
        return Err(Unread::OtherForm);
    };
    let rest = entry_lists(tasks, rest, numbers, lists)?;
    let Some(rest) = behind(rest, b'\n') else {
        return Err(Unread::OtherForm);
    };
    Ok((head, rest))
}

/// The cost of a certificate, and what follows its line.
#[tactic(auto, unfolding(crate::specs::Reading::cost_at))]
pub(crate) fn cost(text: &[u8]) -> Option<(u64, &[u8])>
    ensures { option_map (λ x. (x.0, x.1.now)) result ≡ cost_at text.now }
{
    let rest = behind_all(text, b"bound ")?;
    let (cost, rest) = number(0, MOST + 1, rest)?;
    let rest = behind(rest, b'\n')?;
    Some((cost, rest))
}
