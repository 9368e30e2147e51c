//! What a party signed, while a desk has it.

ghost use Rattle.std.specs.Prelude.{◌≡◌, ◌<◌, ◌≤◌, ◌+◌, ◌-◌, ◌^◌, ◌++◌, ◌∷◌, [], length, max, suc};
ghost use Rattle.std.specs.Vec.{vec_capacity, vec_len};
ghost use Rattle.mp_stamps.specs.Lists.{clock as clock_is};
ghost use Rattle.mp_post_rule.specs.Queues.{stamped_after};
ghost use Rattle.mp_post_rule.specs.Views.{receipt};

use mp_messages::{Bytes, Entries, Entry};
use mp_post_rule::Waiting;
use mp_sets::Agent;
use mp_stamps::Stamped;

/// The stamp of the last entry, 0 where there is none.
pub(crate) fn clock(own: &[Stamped]) -> u64
    ensures { result ≡ clock_is own.now }
{
    match own.last() {
        Some(last) => last.stamp,
        None => 0,
    }
}

/// A batch is behind the other entries, with the stamps after this one. It takes no memory, and leaves room for
/// one entry more.
pub(crate) fn add_batch(own: &mut Vec<Stamped>, clock: u64, batch: Entries)
    requires stamps { clock + length batch ≤ 2 ^ 64 - 2 }
    requires room { vec_len own.old + length batch < vec_capacity own.old }
    ensures items { own.new.items ≡ own.old.items ++ stamped_after clock batch }
    ensures room { vec_len own.new < vec_capacity own.new }
{
    let mut stamp = clock;
    for entry in batch.into_items() {
        stamp += 1;
        own.push(Stamped { stamp, entry }).unwrap();
    }
}

/// The stamp of a message's receipt: it passes those of the message and of the last entry.
pub(crate) fn stamp_after(own: &[Stamped], message: &Waiting) -> u64
    requires { clock_is own.now ≤ 2 ^ 64 - 2 }
    ensures is { result ≡ suc (max (clock_is own.now) message.now.stamp) }
    ensures below { suc (max (clock_is own.now) message.now.stamp) < 2 ^ 64 }
{
    let last = clock(own);
    let stamp = message.stamp();
    if last < stamp { stamp + 1 } else { last + 1 }
}

/// A receipt is behind the other entries, where there is room for it. The message's bytes come back.
pub(crate) fn add_receipt(
    own: &mut Vec<Stamped>,
    stamp: u64,
    by: Agent,
    from: Agent,
    message: Waiting,
) -> Bytes
    requires stamp { stamp ≡ suc (max (clock_is own.old.items) message.stamp) }
    requires room { vec_len own.old < vec_capacity own.old }
    ensures items { own.new.items ≡ own.old.items ++ receipt (clock_is own.old.items) by from message ∷ [] }
    ensures bytes { result ≡ message.bytes }
{
    let (bytes, again) = message.into_bytes();
    let entry = Entry::Took { by, from, bytes };
    own.push(Stamped { stamp, entry }).unwrap();
    again
}
