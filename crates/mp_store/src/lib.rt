//! The states that one agent of a team has met in its search.
#![tactic(auto)]

mod entry;
mod key;
mod keys;
mod laws;
mod number_store;
mod open_list;
mod rank;
mod store;

pub use entry::{Entry, EntryView, KeyView, Mark, Offer, Origin};
pub use key::Key;
pub use laws::{
    best_entry_is_the_last, equal_keys_are_one, known_states_stay_known,
    last_entry_tells_of_its_key, records_stay_sound, sent_states_stay_sent,
};
pub use store::Store;
