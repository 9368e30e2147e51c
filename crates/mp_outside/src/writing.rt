//! Writing a whole text.

ghost use Rattle.std.specs.Prelude.{◌<◌, ◌≤◌, ◌↔◌, OnOk, OnErr, IsErr};
ghost use Rattle.std.specs.Io.KnownBytes.{Appends};
ghost use Rattle.std.specs.List.{flat_map};
ghost use Rattle.mp_outside.specs.Sink.{AppendsBeginning};

use crate::failed::Failed;
use crate::sink::Sink;

/// Writes all of a text, however short the pieces are that the sink takes. It takes no memory. `Failed` exactly
/// where the sink's count of faults rose; the sink then took some beginning of the text.
pub fn put<K: Sink>(sink: &mut K, text: &[u8]) -> Result<(), Failed>
    ensures ok { OnOk result (Appends (K.written sink.old) (K.written sink.new) text.now) }
    ensures err { OnErr result (AppendsBeginning (K.written sink.old) (K.written sink.new) text.now) }
    ensures failed { IsErr result ↔ (K.faults sink.old < K.faults sink.new) }
    ensures later { K.faults sink.old ≤ K.faults sink.new }
{
    let mut done = 0;
    while done < text.len() {
        done += sink.write(&text[done..])?;
    }
    Ok(())
}

/// Writes several texts, one after another, as `put` writes one.
pub fn put_all<K: Sink>(sink: &mut K, texts: &[&[u8]]) -> Result<(), Failed>
    ensures ok { OnOk result (Appends (K.written sink.old) (K.written sink.new) (flat_map (λ t. t.now) texts.now)) }
    ensures err { OnErr result (AppendsBeginning (K.written sink.old) (K.written sink.new) (flat_map (λ t. t.now) texts.now)) }
    ensures failed { IsErr result ↔ (K.faults sink.old < K.faults sink.new) }
    ensures later { K.faults sink.old ≤ K.faults sink.new }
{
    for text in texts {
        put(sink, text)?;
    }
    Ok(())
}
