//! What stands outside a planner: sources of files, sinks of text and gates, and the loops that read a whole
//! file and write a whole text.
#![tactic(auto)]

mod calls;
mod failed;
mod file_source;
mod gate;
mod mem_sink;
mod mem_source;
mod named_text;
mod notes;
mod reading;
mod sink;
mod source;
mod stream_sink;
mod writing;

pub use failed::Failed;
pub use file_source::FileSource;
pub use gate::{Gate, Kind3, NoGate};
pub use mem_sink::MemSink;
pub use mem_source::MemSource;
pub use named_text::NamedText;
pub use notes::{Note, Notes};
pub use reading::{FetchRefusal, fetch};
pub use sink::Sink;
pub use source::Source;
pub use stream_sink::StreamSink;
pub use writing::{put, put_all};
