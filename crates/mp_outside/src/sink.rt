//! Sinks: where text is written.

ghost use Rattle.std.specs.Prelude.{◌≡◌, ◌<◌, ◌≤◌, ℕ, List, Option, length, take, IfOk, OnErr};
ghost use Rattle.std.specs.Io.KnownBytes.{Appends};
ghost use Rattle.mp_outside.specs.Sink.{AppendsBeginning};

use crate::failed::Failed;

/// A place that takes bytes, one piece after another.
///
/// A sink may tell the bytes that it took (`written`). It always has a count of faults (`faults`), which rises
/// just in the calls that fail.
pub trait Sink {
    // The bytes taken so far, where the sink tells.
    ghost written: { Self → Option (List ℕ) };

    // How many faults there were.
    ghost faults: { Self → ℕ };

    /// Takes a beginning of the piece: how many bytes, at least one where the piece is not empty. `Failed`
    /// exactly where the count of faults rose; what was taken then is some beginning of the piece, which may be empty,
    /// and the sink may tell its bytes no more.
    fn write(&mut self, piece: &[u8]) -> Result<usize, Failed>
        ensures later { faults self.old ≤ faults self.new }
        ensures failed { OnErr result (faults self.old < faults self.new) }
        ensures no_fault { IfOk result (λ _. faults self.new ≡ faults self.old) }
        ensures count { IfOk result (λ n. n ≤ length piece.now) }
        ensures some { IfOk result (λ n. 0 < length piece.now → 0 < n) }
        ensures ok { IfOk result (λ n. Appends (written self.old) (written self.new) (take n piece.now)) }
        ensures err { OnErr result (AppendsBeginning (written self.old) (written self.new) piece.now) };
}
