//! Writing a text, and what is left to say where that fails.

use crate::ending::Ending;
use mp_outside::{Sink, put_all};

/// Writes texts, and ends so where that goes well.
pub(crate) fn written<K: Sink>(out: &mut K, texts: &[&[u8]], ending: Ending) -> Ending {
    match put_all(out, texts) {
        Ok(()) => ending,
        Err(_) => Ending::Write,
    }
}

/// Says on the error stream how a call ends, where nothing on the output does.
pub(crate) fn told<E: Sink>(err: &mut E, ending: Ending) -> Ending {
    let line: &str = match ending {
        Ending::Fine | Ending::Faulty | Ending::Undecided => return ending,
        Ending::Words => "maplan_explain: words; try maplan_explain --help\n",
        Ending::Write => "maplan_explain: cannot write\n",
        Ending::Memory => "maplan_explain: out of memory\n",
    };
    let _ = put_all(err, &[line.as_bytes()]);
    ending
}
