//! What a batch needs at a post, made before it is signed.

ghost use Rattle.std.specs.Prelude.{◌≡◌, ◌<◌, ◌≤◌, ◌+◌, ◌-◌, ◌^◌, All, length, OnErr, OnOk};
ghost use Rattle.mp_post_rule.specs.Queues.{count_puts};
ghost use Rattle.mp_post.specs.Growth.{HasQueue, with_all, with_mail, without_all, without_mail};

use mp_list::{Copied, OutOfMemory};
use mp_messages::Entry;
use mp_post_rule::{Queues, Waiting};

/// How many messages a batch puts.
pub(crate) fn puts_in(batch: &[Entry]) -> u64
    requires { length batch.now < 2 ^ 64 }
    ensures { result ≡ count_puts batch.now }
{
    let mut count = 0;
    for entry in batch {
        if let Entry::Put { .. } = entry {
            count += 1;
        }
    }
    count
}

/// The message that an entry puts waits behind the others. For want of memory all is as it was.
fn add_mail(waiting: &mut Queues, stamp: u64, entry: &Entry) -> Result<(), OutOfMemory>
    requires stamp { stamp < 2 ^ 64 - 1 }
    requires queue { HasQueue (length waiting.old) entry.now }
    ensures ok { OnOk result (waiting.new ≡ with_mail stamp entry.now waiting.old) }
    ensures err { OnErr result (waiting.new ≡ waiting.old) }
{
    match entry {
        Entry::Put { from: _, to, bytes } => {
            let message = Waiting::new(stamp, bytes.copy()?, bytes.copy()?);
            waiting.push(usize::from(to.number()) - 1, message)
        }
        Entry::Act(_, _) | Entry::Took { .. } => Ok(()),
    }
}

/// The message that an entry put, the last one in its queue, is taken back.
fn remove_mail(waiting: &mut Queues, entry: &Entry)
    requires { HasQueue (length waiting.old) entry.now }
    ensures { waiting.new ≡ without_mail entry.now waiting.old }
{
    if let Entry::Put {
        from: _,
        to,
        bytes: _,
    } = entry
    {
        let at = usize::from(to.number()) - 1;
        let count = waiting.waiting(at);
        waiting.truncate(at, count.saturating_sub(1));
    }
}

/// The messages that entries put are taken back, the last one first.
fn remove_all(waiting: &mut Queues, entries: &[Entry])
    requires { All (HasQueue (length waiting.old)) entries.now }
    ensures { waiting.new ≡ without_all entries.now waiting.old }
{
    let mut left = entries.len();
    while left > 0 {
        left -= 1;
        remove_mail(waiting, &entries[left]);
    }
}

/// The messages of a batch wait behind the others, with the stamps after this one. For want of memory all is
/// as it was.
pub(crate) fn add_all(waiting: &mut Queues, clock: u64, batch: &[Entry]) -> Result<(), OutOfMemory>
    requires stamps { clock + length batch.now ≤ 2 ^ 64 - 2 }
    requires queues { All (HasQueue (length waiting.old)) batch.now }
    ensures ok { OnOk result (waiting.new ≡ with_all clock batch.now waiting.old) }
    ensures err { OnErr result (waiting.new ≡ waiting.old) }
{
    for at in 0..batch.len() {
        let stamp = clock + at as u64 + 1;
        if add_mail(waiting, stamp, &batch[at]).is_err() {
            remove_all(waiting, &batch[..at]);
            return Err(OutOfMemory);
        }
    }
    Ok(())
}
