//! How many entries a log in memory has.

ghost use Rattle.std.specs.Prelude.{◌<◌, ◌^◌, length};

use mp_messages::Log;

/// A log has fewer than 2^59 entries: those of a slice take fewer than 2^63 bytes together, and each takes at least 16.
pub(crate) fn is_in_memory(log: &Log)
    ensures { length log.now < 2 ^ 59 }
{
    let _ = log.len();
}
