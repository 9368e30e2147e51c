//! Reading a whole file, up to a limit.

ghost use Rattle.std.specs.Prelude.{◌≡◌, ◌≢◌, ◌+◌, ◌^◌, ◌<◌, ◌≤◌, ◌↔◌, true, take, vec_len, vec_items, IfSome, IfOk, IfErr, Some};
ghost use Rattle.mp_outside.specs.Acts.{AreReads, FileAsked, Does, IsReadOnce};
ghost use Rattle.mp_outside.specs.Source.{Lacks, LosesAtMost, TakesAtMost, FaultAt, IsFrontOf};

use crate::source::Source;
use std::alloc::{AllocError, Global};
use thiserror::Error;

/// The most bytes that one read asks for.
const PIECE: usize = 4096;

/// Why a file was not read.
#[derive(Clone, Copy, Debug, PartialEq, Eq, Error)]
pub enum FetchRefusal {
    /// The source tells that it does not hold the name.
    #[error("no such file")]
    Absent,
    /// The source failed.
    #[error("failed")]
    Failed,
    /// No memory was left.
    #[error("out of memory")]
    OutOfMemory,
}

/// The first bytes of the file of this name, at most `limit + 1` of them, so that the caller sees whether the
/// file is longer than the limit. Whatever it answers, no more of the file is taken from the source, and where the
/// source tells what is done at it, each read but the last took at least one byte. `Absent`
/// exactly where the source tells that it does not hold the name; `Failed` exactly where its count of faults rose,
/// at this name; `OutOfMemory` for want of memory.
pub fn fetch<S: Source>(
    alloc: Global,
    source: &mut S,
    name: &str,
    limit: usize,
) -> Result<Vec<u8>, FetchRefusal>
    requires { limit < 2 ^ 32 }
    ensures text { IfOk result (λ bytes. IsFrontOf (S.held source.old) name.now (limit + 1) bytes.items) }
    ensures short { IfOk result (λ bytes. vec_len bytes ≤ limit + 1) }
    ensures taken { TakesAtMost (S.held source.old) name.now (limit + 1) (S.left source.old) (S.left source.new) }
    ensures absent { (result ≡ Err FetchRefusal.Absent) ↔ Lacks (S.held source.old) name.now }
    ensures failed { (result ≡ Err FetchRefusal.Failed) ↔ (S.faults source.old < S.faults source.new) }
    ensures at { result ≡ Err FetchRefusal.Failed → FaultAt (S.held source.old) (S.fault_at source.new) (Some name.now) }
    ensures later { S.faults source.old ≤ S.faults source.new }
    ensures held { S.held source.new ≡ S.held source.old }
    ensures acts { Does (IsReadOnce (record { name = name.now; longest = limit })) (S.acts source.old) (S.acts source.new) }
{
    match source.begin(name) {
        Ok(true) => read_front(alloc, source, limit + 1),
        Ok(false) => Err(FetchRefusal::Absent),
        Err(_) => Err(FetchRefusal::Failed),
    }
}

// The next bytes of the file that was begun, at most so many of them.
#[tactic(auto, using(crate::proofs::Acts::none_yet))]
fn read_front<S: Source>(
    alloc: Global,
    source: &mut S,
    most: usize,
) -> Result<Vec<u8>, FetchRefusal>
    requires begun { S.is_begun source.old ≡ true }
    requires small { most ≤ 2 ^ 32 }
    ensures text { IfOk result (λ bytes. IfSome (S.left source.old) (λ whole. bytes.items ≡ take most whole)) }
    ensures short { IfOk result (λ bytes. vec_len bytes ≤ most) }
    ensures taken { LosesAtMost (S.left source.old) (S.left source.new) most }
    ensures present { IfErr result (λ e. e ≢ FetchRefusal.Absent) }
    ensures failed { (result ≡ Err FetchRefusal.Failed) ↔ (S.faults source.old < S.faults source.new) }
    ensures at { IfErr result (λ e. e ≡ FetchRefusal.Failed → FaultAt (S.held source.old) (S.fault_at source.new) (S.begun source.old)) }
    ensures later { S.faults source.old ≤ S.faults source.new }
    ensures held { S.held source.new ≡ S.held source.old }
    ensures acts { Does (AreReads most) (S.acts source.old) (S.acts source.new) }
{
    let mut piece = [0; PIECE];
    let mut bytes = Vec::new(alloc);
    let mut room = most;
    while room > 0 {
        let asked = room.min(PIECE);
        let Ok(taken) = source.read(&mut piece[..asked]) else {
            return Err(FetchRefusal::Failed);
        };
        if taken == 0 {
            return Ok(bytes);
        }
        if bytes.extend_from_slice(&piece[..taken]).is_err() {
            return Err(FetchRefusal::OutOfMemory);
        }
        room -= taken;
    }
    Ok(bytes)
}
