//! What holds of the message of bytes.

ghost use Rattle.std.specs.Prelude.{◌≡◌, ℕ, ◌<◌, ◌^◌, ◌↔◌, List, Some};
ghost use Rattle.mp_messages.specs.declared.message.Message.{Message};
ghost use Rattle.mp_messages.specs.Spelling.{IsSpelling};
ghost use Rattle.mp_search.specs.Spelled.{message_of};

/// Bytes have a message exactly where they spell it, in a team with fewer than 2^32 public facts.
pub fn bytes_have_the_message_that_they_spell()
    ensures { (agents publics : ℕ) (m : Message) (bytes : List ℕ)
        → (message_of agents publics bytes ≡ Some m) ↔ ((publics < 2 ^ 32) × IsSpelling agents publics m bytes) }
{}
