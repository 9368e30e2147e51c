//! A sink in memory.

ghost use Rattle.std.specs.Prelude.{◌≡◌, ◌<◌, ◌≤◌, ◌+◌, ◌-◌, ◌^◌, [], length, take, min, Some, IfOk, IsErr, is_err, OnErr, IsTrue, if◌then◌else◌, vec_items};
ghost use Rattle.std.specs.Io.KnownBytes.{Appends};
ghost use Rattle.mp_outside.specs.Calls.{after_call, next_fails};
ghost use Rattle.mp_outside.specs.Sink.{AppendsBeginning, told};

use crate::calls::Calls;
use crate::failed::Failed;
use crate::sink::Sink;
use std::alloc::Global;

/// A sink that keeps what it takes, for tests: at most so many bytes at a call, and nothing at the calls, counted
/// from 1, that are to fail. Want of memory is a fault too. It tells its bytes. (After `u64::MAX` faults, which
/// no run comes to, it could count no more: it then takes what it is given, and tells nothing.)
#[derive(Drop)]
pub struct MemSink {
    bytes: Vec<u8>,
    greatest: usize,
    calls: Calls,
    faults: u64,
    ghost some: { 0 < greatest },
}

impl MemSink {
    /// An empty sink, which takes at most `greatest` bytes at a call, and fails at the calls of these numbers.
    pub fn new(alloc: Global, greatest: usize, failing: Vec<u64>) -> MemSink
        requires { 0 < greatest }
        ensures bytes { result.bytes.items ≡ [] }
        ensures greatest { result.greatest ≡ greatest }
        ensures made { result.calls.made ≡ 0 }
        ensures failing { result.calls.failing ≡ failing }
        ensures faults { result.faults ≡ 0 }
    {
        MemSink {
            bytes: Vec::new(alloc),
            greatest,
            calls: Calls::new(failing),
            faults: 0,
        }
    }

    /// The bytes that it took.
    pub fn bytes(&self) -> &[u8]
        ensures { result.now ≡ self.now.bytes.items }
    {
        self.bytes.as_slice()
    }

    /// How many faults there were.
    pub fn faults(&self) -> u64
        ensures { result ≡ self.now.faults }
    {
        self.faults
    }
}

impl Sink for MemSink {
    ghost written = { λ s. told s.faults (Some s.bytes.items) };

    ghost faults = { λ s. s.faults };

    fn write(&mut self, piece: &[u8]) -> Result<usize, Failed>
        ensures later { self.old.faults ≤ self.new.faults }
        ensures failed { OnErr result (self.old.faults < self.new.faults) }
        ensures no_fault { IfOk result (λ _. self.new.faults ≡ self.old.faults) }
        ensures count { IfOk result (λ n. n ≤ length piece.now) }
        ensures some { IfOk result (λ n. 0 < length piece.now → 0 < n) }
        ensures ok { IfOk result (λ n. Appends (told self.old.faults (Some self.old.bytes.items)) (told self.new.faults (Some self.new.bytes.items)) (take n piece.now)) }
        ensures err { OnErr result (AppendsBeginning (told self.old.faults (Some self.old.bytes.items)) (told self.new.faults (Some self.new.bytes.items)) piece.now) }

        // A failing call takes nothing; another one takes as much as it may.
        ensures kept { OnErr result (self.new.bytes.items ≡ self.old.bytes.items) }
        ensures most { self.old.faults < 2 ^ 64 - 1 → IfOk result (λ n. n ≡ min (length piece.now) self.old.greatest) }

        // The calls that are to fail do, and each call is counted, and each fault.
        ensures fails { self.old.faults < 2 ^ 64 - 1 → IsTrue (next_fails self.old.calls.made self.old.calls.failing.items) → IsErr result }
        ensures made { self.old.faults < 2 ^ 64 - 1 → self.new.calls.made ≡ after_call self.old.calls.made }
        ensures raised { self.new.faults ≡ self.old.faults + (if is_err result then 1 else 0) }
        ensures same { (self.new.greatest ≡ self.old.greatest) × (self.new.calls.failing ≡ self.old.calls.failing) }
    {
        if self.faults == u64::MAX {
            return Ok(piece.len());
        }
        let taken = piece.len().min(self.greatest);
        let fails = self.calls.count();
        if fails || self.bytes.extend_from_slice(&piece[..taken]).is_err() {
            self.faults += 1;
            return Err(Failed);
        }
        Ok(taken)
    }
}
