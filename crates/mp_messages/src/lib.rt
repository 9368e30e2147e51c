//! What agents send each other, as values and as bytes, and the log of what each agent did.
#![tactic(auto)]

mod decoding;
mod encoding;
mod history;
mod laws;
mod lines;
mod log;
mod message;
mod reading;

pub use decoding::{DecodeRefusal, decode};
pub use encoding::{encode, encode_state};
pub use history::{Bytes, Entries, Entry, Event, EventList, Kind, Views};
pub use laws::{
    equal_entries_are_one, equal_messages_are_one, fronts_of_histories_are_legal,
    histories_grow_by_entries, messages_come_in_order, no_spelling_begins_another,
    spelling_is_one_to_one,
};
pub use lines::EntryView;
pub use log::Log;
pub use message::{EndKind, Findings, Message, State, StateNumbers};
pub use reading::decode_state_into;
