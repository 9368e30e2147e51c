//! Sources: where files are read.

ghost use Rattle.std.specs.Prelude.{◌≡◌, ◌≢◌, ◌<◌, ◌≤◌, ◌↔◌, ℕ, List, Option, Bool, true, false, length, take, IfOk, OnErr, Ok, Some};
ghost use Rattle.std.specs.Io.KnownBytes.{Consumes, IsAtEnd};
ghost use Rattle.mp_outside.specs.Acts.{Act, Does, Begins as BeginsFile, Takes, TakesUpTo};
ghost use Rattle.mp_outside.specs.Source.{Files, Lacks, LosesAtMost, Begins, FaultAt};

use crate::failed::Failed;

/// Files that are read by their names, one after another, each from its beginning.
///
/// A source may tell what it holds (`held`), and then no call changes that. It always has a count of faults
/// (`faults`), which rises just in the calls that fail. It may tell what is done at it, one act after another
/// (`acts`), and may stop telling that at any call.
pub trait Source {
    // The bytes held under each name, where the source tells.
    ghost held: { Self → Option Files };

    // Whether a file was begun.
    ghost is_begun: { Self → Bool };

    // The bytes left of the file that was begun, where the source tells.
    ghost left: { Self → Option (List ℕ) };

    // The name of the file that was begun, where the source tells.
    ghost begun: { Self → Option (List ℕ) };

    // The name at which the last fault came, where the source tells.
    ghost fault_at: { Self → Option (List ℕ) };

    // How many faults there were.
    ghost faults: { Self → ℕ };

    // Which files were begun, and how many bytes each read took, where the source tells.
    ghost acts: { Self → Option (List Act) };

    /// Begins the file of this name at its first byte. False exactly where the source tells what it holds and
    /// does not hold this name; that is no fault. `Failed` exactly where the count of faults rose. Where it does
    /// not answer true, the bytes left stay.
    fn begin(&mut self, name: &str) -> Result<bool, Failed>
        ensures held { held self.new ≡ held self.old }
        ensures later { faults self.old ≤ faults self.new }
        ensures failed { OnErr result (faults self.old < faults self.new) }
        ensures absent { (result ≡ Ok false) ↔ Lacks (held self.old) name.now }
        ensures no_fault { IfOk result (λ _. faults self.new ≡ faults self.old) }
        ensures begun { result ≡ Ok true → is_begun self.new ≡ true }
        ensures still { result ≢ Ok true → left self.new ≡ left self.old }
        ensures whole { result ≡ Ok true → Begins (held self.old) name.now (left self.new) (begun self.new) }
        ensures at { OnErr result (FaultAt (held self.old) (fault_at self.new) (Some name.now)) }
        ensures act { result ≡ Ok true → Does (BeginsFile name.now) (acts self.old) (acts self.new) }
        ensures no_act { result ≢ Ok true → acts self.new ≡ acts self.old };

    /// Takes the next bytes of the file that was begun, and puts them at the front of the buffer: their count,
    /// which is 0 only at the end of the file. `Failed` exactly where the count of faults rose; then no more bytes
    /// are gone than the buffer has room for.
    fn read(&mut self, buf: &mut [u8]) -> Result<usize, Failed>
        requires room { 0 < length buf.old }
        requires begun { is_begun self.old ≡ true }
        ensures held { held self.new ≡ held self.old }
        ensures later { faults self.old ≤ faults self.new }
        ensures failed { OnErr result (faults self.old < faults self.new) }
        ensures no_fault { IfOk result (λ _. faults self.new ≡ faults self.old) }
        ensures lost { OnErr result (LosesAtMost (left self.old) (left self.new) (length buf.old)) }
        ensures count { IfOk result (λ n. n ≤ length buf.old) }
        ensures bytes { IfOk result (λ n. Consumes (left self.old) (left self.new) (take n buf.new)) }
        ensures end { IfOk result (λ n. n ≡ 0 → IsAtEnd (left self.old)) }
        ensures still { IfOk result (λ _. (is_begun self.new ≡ true) × (begun self.new ≡ begun self.old)) }
        ensures at { OnErr result (FaultAt (held self.old) (fault_at self.new) (begun self.old)) }
        ensures act { IfOk result (λ n. Does (Takes n) (acts self.old) (acts self.new)) }
        ensures failed_act { OnErr result (Does (TakesUpTo (length buf.old)) (acts self.old) (acts self.new)) };
}
