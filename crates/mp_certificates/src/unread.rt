//! Why nothing was read from the front of a text.

ghost use Rattle.std.specs.Prelude.{◌≡◌};
ghost use Rattle.mp_certificates.specs.declared.unread.Unread.TheVariants.{OutOfMemory as NoMemory};

use mp_list::OutOfMemory;

/// Why nothing was read from the front of a text.
#[derive(Clone, Copy)]
pub(crate) enum Unread {
    /// Something else stands there.
    OtherForm,
    /// No memory was left.
    OutOfMemory,
}

impl From<OutOfMemory> for Unread {
    ghost from_gives = { λ _ e. e ≡ NoMemory };

    fn from(_e: OutOfMemory) -> Unread {
        Unread::OutOfMemory
    }
}
