//! Posts at the end.

ghost use Rattle.std.specs.Prelude.{◌≡◌, ℕ, All, map, IfErr, IfOk};
ghost use Rattle.mp_messages.specs.History.{IsHistory, agent_of, part};
ghost use Rattle.mp_stamps.specs.Lists.{IsAgentOf, entries};
ghost use Rattle.mp_stamps.specs.Merged.{Merged};
ghost use Rattle.mp_post_rule.specs.Kinds.{HoldsAll};
ghost use Rattle.mp_post_rule.specs.Table.{ArePosts};
ghost use Rattle.mp_post_rule.specs.Views.{list_at, lists_of};
ghost use Rattle.mp_post.specs.Desks.{IsDeskOf};

use crate::desk::Desk;
use mp_list::{Copied, List, OutOfMemory};
use mp_messages::{Entries, Log};
use mp_post_rule::{Posts, look_at_lists};
use mp_stamps::{StampedList, StampedLists, merge_moved, merge_stamped};
use std::alloc::Global;

/// What each agent signed, without stamps, that of agent 1 first.
pub type Lists = List<Entries>;

/// The entries of a list without their stamps.
fn entries_of(alloc: Global, list: &StampedList) -> Result<Entries, OutOfMemory>
    ensures { IfOk result (λ all. all ≡ entries list.now) }
{
    let mut all = Entries::with_capacity(alloc, list.len())?;
    for stamped in list.as_slice() {
        all.push(stamped.entry.copy()?)?;
    }
    Ok(all)
}

/// The entries of all lists without their stamps.
fn all_entries(alloc: Global, lists: &StampedLists) -> Result<Lists, OutOfMemory>
    ensures { IfOk result (λ all. all ≡ map entries lists.now) }
{
    let mut all = Lists::with_capacity(alloc, lists.len())?;
    for list in lists.as_slice() {
        all.push(entries_of(alloc, list)?)?;
    }
    Ok(all)
}

impl Desk {
    /// The log of all that was signed, merged by stamps, of a desk that holds all agents: each agent's part of it is what it
    /// signed. The desk is gone, and each entry is let go as soon as the log has its message. Refuses only for want of memory.
    pub fn into_log(self, posts: &Posts) -> Result<Log, OutOfMemory>
        requires posts { ArePosts posts.now.shared.table_id posts.now.shared.key }
        requires desk { IsDeskOf posts.now.shared.table_id posts.now.shared.key self }
        requires all { HoldsAll posts.now.shared.key self.view }
        ensures merged { IfOk result (Merged (lists_of self.view)) }
        ensures legal { IfOk result IsHistory }
        ensures parts { IfOk result (λ log. (agent : ℕ) → IsAgentOf posts.now.shared.key agent
            → part log agent ≡ entries (list_at self.view agent)) }
        ensures agents { IfOk result (All (λ e. IsAgentOf posts.now.shared.key (agent_of e))) }
    {
        let (mut seat, lists, _) = self.into_parts();
        look_at_lists(posts, &mut seat);
        merge_moved(lists)
    }

    /// The log of all that was signed, as `into_log` gives it, where the desk stays as it is.
    fn log(&mut self, posts: &Posts) -> Result<Log, OutOfMemory>
        requires posts { ArePosts posts.now.shared.table_id posts.now.shared.key }
        requires desk { IsDeskOf posts.now.shared.table_id posts.now.shared.key self.old }
        requires all { HoldsAll posts.now.shared.key self.old.view }
        ensures same { self.new ≡ self.old }
        ensures merged { IfOk result (Merged (lists_of self.old.view)) }
        ensures legal { IfOk result IsHistory }
        ensures parts { IfOk result (λ log. (agent : ℕ) → IsAgentOf posts.now.shared.key agent
            → part log agent ≡ entries (list_at self.old.view agent)) }
        ensures agents { IfOk result (All (λ e. IsAgentOf posts.now.shared.key (agent_of e))) }
    {
        look_at_lists(posts, &mut self.seat);
        merge_stamped(&self.lists)
    }

    /// What each agent signed, that of agent 1 first; nothing of an agent that another desk holds. Refuses only for want of
    /// memory.
    fn all_signed(&self) -> Result<Lists, OutOfMemory>
        ensures { IfOk result (λ all. all ≡ map entries (lists_of self.now.view)) }
    {
        all_entries(*self.held.allocator(), &self.lists)
    }

    /// The log of all that was signed, and what each agent signed.
    fn log_and_lists(&mut self, posts: &Posts) -> Result<(Log, Lists), OutOfMemory>
        requires posts { ArePosts posts.now.shared.table_id posts.now.shared.key }
        requires desk { IsDeskOf posts.now.shared.table_id posts.now.shared.key self.old }
        requires all { HoldsAll posts.now.shared.key self.old.view }
        ensures same { self.new ≡ self.old }
        ensures merged { IfOk result (λ r. Merged (lists_of self.old.view) r.0) }
        ensures legal { IfOk result (λ r. IsHistory r.0) }
        ensures parts { IfOk result (λ r. (agent : ℕ) → IsAgentOf posts.now.shared.key agent
            → part r.0 agent ≡ entries (list_at self.old.view agent)) }
        ensures agents { IfOk result (λ r. All (λ e. IsAgentOf posts.now.shared.key (agent_of e)) r.0) }
        ensures lists { IfOk result (λ r. r.1 ≡ map entries (lists_of self.old.view)) }
    {
        let log = self.log(posts)?;
        let all = self.all_signed()?;
        Ok((log, all))
    }

    /// Ends the posts of a desk that holds all agents: the log of all that they signed, merged by stamps, and what each
    /// of them signed. For want of memory posts and desk come back.
    pub fn close(mut self, posts: Posts) -> Result<(Log, Lists), (OutOfMemory, Posts, Desk)>
        requires posts { ArePosts posts.shared.table_id posts.shared.key }
        requires desk { IsDeskOf posts.shared.table_id posts.shared.key self }
        requires all { HoldsAll posts.shared.key self.view }
        ensures merged { IfOk result (λ r. Merged (lists_of self.view) r.0) }
        ensures legal { IfOk result (λ r. IsHistory r.0) }
        ensures parts { IfOk result (λ r. (agent : ℕ) → IsAgentOf posts.shared.key agent
            → part r.0 agent ≡ entries (list_at self.view agent)) }
        ensures agents { IfOk result (λ r. All (λ e. IsAgentOf posts.shared.key (agent_of e)) r.0) }
        ensures lists { IfOk result (λ r. r.1 ≡ map entries (lists_of self.view)) }
        ensures refused { IfErr result (λ r. (r.1.shared ≡ posts.shared) × (r.2 ≡ self)) }
    {
        match self.log_and_lists(&posts) {
            Ok(both) => Ok(both),
            Err(refused) => Err((refused, posts, self)),
        }
    }
}
