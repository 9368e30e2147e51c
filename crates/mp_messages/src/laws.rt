//! Laws of messages and of histories. Each holds for every message, every team and every log.

ghost use Rattle.std.specs.Prelude.{◌≡◌, IsTrue, ℕ, ◌<◌, ◌^◌, ◌∷◌, ◌++◌, ◌↔◌, [], List, All, Some, length, take};
ghost use Rattle.mp_messages.specs.Comparing.{end_kind_eq, entry_eq, event_eq, findings_eq, kind_eq, message_eq, state_eq};
ghost use Rattle.mp_messages.specs.declared.history.Entry.{Entry};
ghost use Rattle.mp_messages.specs.declared.history.Event.{Event};
ghost use Rattle.mp_messages.specs.declared.history.Kind.{Kind};
ghost use Rattle.mp_messages.specs.declared.message.EndKind.{EndKind};
ghost use Rattle.mp_messages.specs.declared.message.Findings.{Findings};
ghost use Rattle.mp_messages.specs.declared.message.Message.{Message};
ghost use Rattle.mp_messages.specs.declared.message.State.{State};
ghost use Rattle.mp_messages.specs.History.{IsHistory, MayFollow, received, sent};
ghost use Rattle.mp_messages.specs.Spelling.{IsSpelling};

/// A message has one spelling, and bytes spell at most one message of a team.
pub fn spelling_is_one_to_one()
    ensures bytes { (agents publics : ℕ) (m : Message) (a b : List ℕ)
        → IsSpelling agents publics m a → IsSpelling agents publics m b → a ≡ b }
    ensures message { (agents publics : ℕ) (m n : Message) (bytes : List ℕ) → publics < 2 ^ 32
        → IsSpelling agents publics m bytes → IsSpelling agents publics n bytes → m ≡ n }
{}

/// No spelling in a team begins another one: where one follows it with more bytes, these are none.
pub fn no_spelling_begins_another()
    ensures { (agents publics : ℕ) (m n : Message) (bytes rest : List ℕ) → publics < 2 ^ 32
        → IsSpelling agents publics m bytes → IsSpelling agents publics n (bytes ++ rest) → rest ≡ [] }
{}

/// The empty log is a legal history, and a log with one more entry is one exactly where the log is one and
/// the entry may follow it.
pub fn histories_grow_by_entries()
    ensures empty { IsHistory [] }
    ensures grows { (log : List Entry) (e : Entry) → IsHistory (log ++ e ∷ []) ↔ (IsHistory log × MayFollow log e) }
{}

/// What begins a legal history is one.
pub fn fronts_of_histories_are_legal()
    ensures { (log more : List Entry) → IsHistory (log ++ more) → IsHistory log }
{}

/// In a legal history what an agent took from another is the first part of what that one put for it, in the
/// same order.
pub fn messages_come_in_order()
    ensures { (log : List Entry) (from to : ℕ) → IsHistory log
        → received from to log ≡ take (length (received from to log)) (sent from to log) }
{}

/// Messages and what they consist of are equal exactly where they are one value.
pub fn equal_messages_are_one()
    ensures messages { (m n : Message) → IsTrue (message_eq m n) ↔ (m ≡ n) }
    ensures states { (s t : State) → IsTrue (state_eq s t) ↔ (s ≡ t) }
    ensures findings { (f g : Findings) → IsTrue (findings_eq f g) ↔ (f ≡ g) }
    ensures endings { (a b : EndKind) → IsTrue (end_kind_eq a b) ↔ (a ≡ b) }
{}

/// Entries of a log and what they consist of are equal exactly where they are one value.
pub fn equal_entries_are_one()
    ensures entries { (a b : Entry) → IsTrue (entry_eq a b) ↔ (a ≡ b) }
    ensures events { (a b : Event) → IsTrue (event_eq a b) ↔ (a ≡ b) }
    ensures kinds { (a b : Kind) → IsTrue (kind_eq a b) ↔ (a ≡ b) }
{}
