//! What the types of the parts of a certificate promise.

ghost use Rattle.std.specs.Prelude.{◌≤◌, All};
ghost use Rattle.std.specs.List.Sorted.{IsStrictlyIncreasing};
ghost use Rattle.mp_certificates.specs.Accepted.{IsFormed};

use mp_audit::Bound;
use mp_sets::{Agent, FactList};

/// An agent has a number from 1 on.
fn is_numbered(agent: Agent)
    ensures { 1 ≤ agent }
{
    let _ = agent.number();
}

/// A list of facts rises.
fn rises(facts: &FactList)
    ensures { IsStrictlyIncreasing facts.now }
{
    let _ = facts.as_slice();
}

/// All lists of facts rise.
fn all_rise(lists: &[FactList])
    ensures { All IsStrictlyIncreasing lists.now }
{
    for facts in lists {
        rises(facts);
    }
}

/// What each entry is, whatever the team.
fn is_formed(entry: &Bound)
    ensures { IsFormed entry.now }
{
    is_numbered(entry.agent);
    rises(&entry.publics);
    all_rise(entry.privates.as_slice());
}

/// And what all entries are.
pub(crate) fn are_formed(entries: &[Bound])
    ensures { All IsFormed entries.now }
{
    for entry in entries {
        is_formed(entry);
    }
}
