//! The table of the least costs at which moves lead to a goal, settled from the goals backwards (Dijkstra 1959).

ghost use Rattle.std.specs.Prelude.{◌≡◌, ℕ, ◌<◌, ◌≤◌, ◌+◌, ◌^◌, [], All, IfOk, IsTrue, OnOk, Some, min, vec_len};
ghost use Rattle.mp_estimates.specs.Estimates.{AtMost, Values};
ghost use Rattle.mp_pdb.specs.Moves.{after_move, has_all};
ghost use Rattle.mp_pdb.specs.declared.moves.Move.{Move as Mover};
ghost use Rattle.mp_estimates.specs.Lowering.{AreBelow, HaveFallen, Key, known, number_at, unknown};
ghost use Rattle.mp_pdb.specs.Table.{AreLow, AreReached, IsServed, IsSize, IsTable, MoveFits};

use crate::moves::Move;
use crate::queue::Queue;
use mp_list::OutOfMemory;
use std::alloc::Global;

/// Gives a set a number where that is less than the one that it has.
fn lower(numbers: &mut Vec<u64>, queue: &mut Queue, mask: u16, cost: u64) -> Result<(), OutOfMemory>
    requires { mask < vec_len numbers.old }
    ensures fallen { OnOk result (HaveFallen numbers.old.items queue.old
        numbers.new.items queue.new) }
    ensures lowered { OnOk result (number_at numbers.new.items mask ≤ cost) }
    ensures below { OnOk result ((values : Values) → AtMost (values mask) (known cost)
        → AreBelow values numbers.old.items → AreBelow values numbers.new.items) }
    ensures len { vec_len numbers.new ≡ vec_len numbers.old }
{
    if cost < numbers[mask as usize] {
        numbers[mask as usize] = cost;
        queue.push(cost, mask)?;
    }
    Ok(())
}

/// Lowers the number of each set from which a move leads to a settled one. These sets have what the move needs and what it
/// leaves alone of the settled one, and any part of what else it adds or deletes: the parts are gone through from the
/// greatest binary number to 0.
fn relax(
    found: &Move,
    to: u16,
    cost: u64,
    numbers: &mut Vec<u64>,
    queue: &mut Queue,
) -> Result<(), OutOfMemory>
    requires sized { IsSize (vec_len numbers.old) }
    requires inside { to < vec_len numbers.old }
    requires fits { MoveFits (vec_len numbers.old) found.now }
    ensures fallen { OnOk result (HaveFallen numbers.old.items queue.old
        numbers.new.items queue.new) }
    ensures reached { OnOk result (AreReached (vec_len numbers.old) numbers.new.items found.now to cost) }
    ensures below { OnOk result ((values : Values)
        → ((mask : ℕ) → mask < vec_len numbers.old → IsTrue (has_all mask found.now.pre)
        → after_move found.now mask ≡ to → AtMost (values mask) (known cost))
        → AreBelow values numbers.old.items → AreBelow values numbers.new.items) }
    ensures len { vec_len numbers.new ≡ vec_len numbers.old }
{
    let changed = found.add | found.del;
    if to & (found.pre | changed) != found.after(found.pre) {
        return Ok(());
    }
    let fixed = (to & !changed) | found.pre;
    let free = changed & !found.pre;
    let mut part = free;
    'parts: loop {
        lower(numbers, queue, fixed | part, cost)?;
        if part == 0 {
            return Ok(());
        }
        part = (part - 1) & free;
    }
}

/// What it costs by a move from what it costs after it; where that is more than a number can say, as much as for none.
fn by_move(cost: u64, number: u64) -> u64
    ensures { result ≡ min (cost + number) unknown }
{
    cost.saturating_add(number)
}

/// Lowers the number of each set from which one of some moves leads to a settled one, which has a number.
fn relax_all(
    moves: &[Move],
    to: u16,
    number: u64,
    numbers: &mut Vec<u64>,
    queue: &mut Queue,
) -> Result<(), OutOfMemory>
    requires sized { IsSize (vec_len numbers.old) }
    requires inside { to < vec_len numbers.old }
    requires fits { All (MoveFits (vec_len numbers.old)) moves.now }
    ensures fallen { OnOk result (HaveFallen numbers.old.items queue.old
        numbers.new.items queue.new) }
    ensures reached { OnOk result (All (λ (m : Mover). AreReached (vec_len numbers.old) numbers.new.items m to (m.cost + number)) moves.now) }
    ensures below { OnOk result ((values : Values) → AreLow (vec_len numbers.old) moves.now values
        → AtMost (values to) (known number)
        → AreBelow values numbers.old.items → AreBelow values numbers.new.items) }
    ensures len { vec_len numbers.new ≡ vec_len numbers.old }
{
    for found in moves {
        relax(found, to, by_move(found.cost, number), numbers, queue)?;
    }
    Ok(())
}

/// Gives a set the number 0 where it has all goals.
fn begin_at(
    goal: u16,
    mask: u16,
    numbers: &mut Vec<u64>,
    queue: &mut Queue,
) -> Result<(), OutOfMemory>
    requires { mask < vec_len numbers.old }
    ensures fallen { OnOk result (HaveFallen numbers.old.items queue.old
        numbers.new.items queue.new) }
    ensures zero { OnOk result (IsTrue (has_all mask goal) → number_at numbers.new.items mask ≤ 0) }
    ensures below { OnOk result ((values : Values)
        → (IsTrue (has_all mask goal) → AtMost (values mask) (Some 0))
        → AreBelow values numbers.old.items → AreBelow values numbers.new.items) }
    ensures len { vec_len numbers.new ≡ vec_len numbers.old }
{
    if mask & goal == goal {
        lower(numbers, queue, mask, 0)?;
    }
    Ok(())
}

/// Gives the sets that have all goals the number 0.
fn begin(goal: u16, numbers: &mut Vec<u64>, queue: &mut Queue) -> Result<(), OutOfMemory>
    requires sized { IsSize (vec_len numbers.old) }
    ensures fallen { OnOk result (HaveFallen numbers.old.items queue.old
        numbers.new.items queue.new) }
    ensures goals { OnOk result ((mask : ℕ) → mask < vec_len numbers.old → IsTrue (has_all mask goal)
        → number_at numbers.new.items mask ≤ 0) }
    ensures below { OnOk result ((values : Values)
        → ((mask : ℕ) → mask < vec_len numbers.old → IsTrue (has_all mask goal) → AtMost (values mask) (Some 0))
        → AreBelow values numbers.old.items → AreBelow values numbers.new.items) }
    ensures len { vec_len numbers.new ≡ vec_len numbers.old }
{
    for mask in 0..numbers.len() as u16 {
        begin_at(goal, mask, numbers, queue)?;
    }
    Ok(())
}

/// Settles the set of least number that waits, until none does. An entry whose set has another number by now is out of
/// date.
fn settle(moves: &[Move], numbers: &mut Vec<u64>, queue: &mut Queue) -> Result<(), OutOfMemory>
    requires sized { IsSize (vec_len numbers.old) }
    requires fits { All (MoveFits (vec_len numbers.old)) moves.now }
    requires inside { All (λ (k : Key). k.1 < vec_len numbers.old) queue.old }
    requires served { (mask : ℕ) → mask < vec_len numbers.old
        → All (λ m. IsServed numbers.old.items queue.old m mask) moves.now }
    ensures lower { OnOk result ((mask : ℕ) → number_at numbers.new.items mask ≤ number_at numbers.old.items mask) }
    ensures served { OnOk result ((mask : ℕ) → mask < vec_len numbers.old
        → All (λ m. IsServed numbers.new.items [] m mask) moves.now) }
    ensures below { OnOk result ((values : Values) → AreLow (vec_len numbers.old) moves.now values
        → AreBelow values numbers.old.items → AreBelow values numbers.new.items) }
    ensures len { vec_len numbers.new ≡ vec_len numbers.old }
{
    'pops: while let Some((number, mask)) = queue.pop() {
        if number == numbers[mask as usize] {
            relax_all(moves, mask, number, numbers, queue)?;
        }
    }
    Ok(())
}

/// No number for each set of so many facts.
fn none_of(alloc: Global, facts: usize) -> Result<Vec<u64>, OutOfMemory>
    requires { facts ≤ 12 }
    ensures none { IfOk result (λ numbers. All (λ n. n ≡ unknown) numbers.items) }
    ensures len { IfOk result (λ numbers. vec_len numbers ≡ 2 ^ facts) }
{
    Ok(vec![in alloc; u64::MAX; 1 << facts]?)
}

/// The table of sets of so many facts for a goal. Refuses only for want of memory.
pub(crate) fn settled(
    alloc: Global,
    facts: usize,
    moves: &[Move],
    goal: u16,
) -> Result<Vec<u64>, OutOfMemory>
    requires few { facts ≤ 12 }
    requires fits { All (MoveFits (2 ^ facts)) moves.now }
    ensures { IfOk result (λ table. IsTable (2 ^ facts) moves.now goal table.items) }
{
    let mut numbers = none_of(alloc, facts)?;
    let mut queue = Queue::new(alloc);
    begin(goal, &mut numbers, &mut queue)?;
    settle(moves, &mut numbers, &mut queue)?;
    Ok(numbers)
}
