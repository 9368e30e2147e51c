//! The search for the values of facts, those of the least cost first (Dijkstra 1959; Knuth 1977).

ghost use Rattle.std.specs.Prelude.{◌≡◌, ℕ, ◌<◌, ◌≤◌, ◌+◌, ◌^◌, [], ◌∷◌, All, Contains, List, length, vec_len, IfNone, IfOk, OnOk, IsTrue, Some, false, true};
ghost use Rattle.std.specs.FinSet as set;
ghost use Rattle.mp_sets.specs.Numbers.{Numbers};
ghost use Rattle.mp_task.specs.Strips.{Operator};
ghost use Rattle.mp_estimates.specs.Estimates.{AtMost, Values};
ghost use Rattle.mp_relaxed.specs.Values.{greatest};
ghost use Rattle.mp_relaxed.specs.Relaxed.{AreCheaper, HasUsers, operator_at};
ghost use Rattle.mp_estimates.specs.Lowering.{AreBelow, HaveFallen, IsProper, Key, known, number_at, unknown, value_at};
ghost use Rattle.mp_relaxed.specs.Search.{AreFound, AreLow, AreLowered, AreSettled, AreValues, HaveStayed, IsMost, IsOpen, IsServed, count_at};
ghost use Rattle.mp_relaxed.specs.Users.{times};

use crate::queue::Queue;
use crate::relaxed::Relaxed;
use mp_list::OutOfMemory;
use mp_sets::Bits;

/// The greatest value of some facts.
pub(crate) fn greatest_of(numbers: &[u64], facts: &[u32]) -> u64
    requires { All (λ x. x < length numbers.now) facts.now }
    ensures { known result ≡ greatest (value_at numbers.now) facts.now }
{
    let mut most = 0;
    for x in facts {
        most = most.max(numbers[*x as usize]);
    }
    most
}

/// Gives a fact a number where that is less than the one that it has.
fn lower(numbers: &mut Vec<u64>, queue: &mut Queue, x: u32, cost: u64) -> Result<(), OutOfMemory>
    requires { x < vec_len numbers.old }
    ensures fallen { OnOk result (HaveFallen numbers.old.items queue.old
        numbers.new.items queue.new) }
    ensures stayed { OnOk result ((n : ℕ) → n ≤ cost
        → HaveStayed n numbers.old.items queue.old numbers.new.items queue.new) }
    ensures lowered { OnOk result (number_at numbers.new.items x ≤ cost) }
    ensures below { OnOk result ((values : Values) → AtMost (values x) (known cost)
        → AreBelow values numbers.old.items → AreBelow values numbers.new.items) }
    ensures len { vec_len numbers.new ≡ vec_len numbers.old }
{
    if cost < numbers[x as usize] {
        numbers[x as usize] = cost;
        queue.push(cost, x)?;
    }
    Ok(())
}

/// Gives what an operator adds the cost by it, where that is less, from the greatest value of its preconditions.
fn relax(
    problem: &Relaxed,
    k: u32,
    most: u64,
    numbers: &mut Vec<u64>,
    queue: &mut Queue,
) -> Result<(), OutOfMemory>
    requires operator { k < length problem.now.operators }
    requires sized { vec_len numbers.old ≡ problem.now.facts }
    requires reached { known most ≡ greatest (value_at numbers.old.items) (operator_at problem.now.operators k).pre }
    ensures fallen { OnOk result (HaveFallen numbers.old.items queue.old
        numbers.new.items queue.new) }
    ensures stayed { OnOk result (HaveStayed most numbers.old.items queue.old numbers.new.items queue.new) }
    ensures served { OnOk result
        (IsServed problem.now.operators numbers.new.items queue.new k) }
    ensures below { OnOk result ((values : Values) → AreLow problem.now.operators values
        → AreBelow values numbers.old.items → AreBelow values numbers.new.items) }
    ensures len { vec_len numbers.new ≡ vec_len numbers.old }
{
    let own = problem.cost(k);
    if own < u64::MAX - most {
        let cost = own + most;
        for x in problem.add(k) {
            lower(numbers, queue, *x, cost)?;
        }
    }
    Ok(())
}

/// Relaxes an operator from the numbers that its preconditions have.
fn relax_now(
    problem: &Relaxed,
    k: u32,
    numbers: &mut Vec<u64>,
    queue: &mut Queue,
) -> Result<(), OutOfMemory>
    requires operator { k < length problem.now.operators }
    requires sized { vec_len numbers.old ≡ problem.now.facts }
    ensures fallen { OnOk result (HaveFallen numbers.old.items queue.old
        numbers.new.items queue.new) }
    ensures served { OnOk result
        (IsServed problem.now.operators numbers.new.items queue.new k) }
    ensures below { OnOk result ((values : Values) → AreLow problem.now.operators values
        → AreBelow values numbers.old.items → AreBelow values numbers.new.items) }
    ensures len { vec_len numbers.new ≡ vec_len numbers.old }
{
    let most = greatest_of(numbers.as_slice(), problem.pre(k));
    relax(problem, k, most, numbers, queue)
}

/// Whether an operator may lower a number, where one of its preconditions has this one.
fn may_lower(problem: &Relaxed, k: u32, least: u64, numbers: &[u64]) -> bool
    requires operator { k < length problem.now.operators }
    requires sized { length numbers.now ≡ problem.now.facts }
    ensures { result ≡ false → All
        (λ y. AtMost (value_at numbers.now y) (known ((operator_at problem.now.operators k).cost + least)))
        (operator_at problem.now.operators k).add }
{
    let own = problem.cost(k);
    if own < u64::MAX - least {
        let cost = own + least;
        for y in problem.add(k) {
            if cost < numbers[*y as usize] {
                return true;
            }
        }
    }
    false
}

/// Relaxes an operator that has a precondition, from the numbers that its preconditions have. Most such operators lower
/// nothing, and the number of this one precondition tells that of many.
fn relax_user(
    problem: &Relaxed,
    k: u32,
    x: u32,
    numbers: &mut Vec<u64>,
    queue: &mut Queue,
) -> Result<(), OutOfMemory>
    requires operator { k < length problem.now.operators }
    requires precondition { Contains (operator_at problem.now.operators k).pre x }
    requires inside { x < problem.now.facts }
    requires sized { vec_len numbers.old ≡ problem.now.facts }
    ensures fallen { OnOk result (HaveFallen numbers.old.items queue.old
        numbers.new.items queue.new) }
    ensures served { OnOk result
        (IsServed problem.now.operators numbers.new.items queue.new k) }
    ensures below { OnOk result ((values : Values) → AreLow problem.now.operators values
        → AreBelow values numbers.old.items → AreBelow values numbers.new.items) }
    ensures len { vec_len numbers.new ≡ vec_len numbers.old }
{
    let least = numbers[x as usize];
    if !may_lower(problem, k, least, numbers.as_slice()) {
        return Ok(());
    }
    relax_now(problem, k, numbers, queue)
}

/// Relaxes the operators that have a precondition, one after another.
fn relax_users(
    problem: &Relaxed,
    x: u32,
    users: &[u32],
    numbers: &mut Vec<u64>,
    queue: &mut Queue,
) -> Result<(), OutOfMemory>
    requires operators { All (λ k. k < length problem.now.operators) users.now }
    requires users { HasUsers problem.now.operators x users.now }
    requires inside { x < problem.now.facts }
    requires sized { vec_len numbers.old ≡ problem.now.facts }
    ensures fallen { OnOk result (HaveFallen numbers.old.items queue.old
        numbers.new.items queue.new) }
    ensures served { OnOk result ((k : ℕ) → Contains users.now k
        → IsServed problem.now.operators numbers.new.items queue.new k) }
    ensures below { OnOk result ((values : Values) → AreLow problem.now.operators values
        → AreBelow values numbers.old.items → AreBelow values numbers.new.items) }
    ensures len { vec_len numbers.new ≡ vec_len numbers.old }
{
    for k in users {
        relax_user(problem, *k, x, numbers, queue)?;
    }
    Ok(())
}

/// Relaxes some operators, one after another.
fn relax_each(
    problem: &Relaxed,
    operators: &[u32],
    numbers: &mut Vec<u64>,
    queue: &mut Queue,
) -> Result<(), OutOfMemory>
    requires operators { All (λ k. k < length problem.now.operators) operators.now }
    requires sized { vec_len numbers.old ≡ problem.now.facts }
    ensures fallen { OnOk result (HaveFallen numbers.old.items queue.old
        numbers.new.items queue.new) }
    ensures served { OnOk result ((k : ℕ) → Contains operators.now k
        → IsServed problem.now.operators numbers.new.items queue.new k) }
    ensures below { OnOk result ((values : Values) → AreLow problem.now.operators values
        → AreBelow values numbers.old.items → AreBelow values numbers.new.items) }
    ensures len { vec_len numbers.new ≡ vec_len numbers.old }
{
    for k in operators {
        relax_now(problem, *k, numbers, queue)?;
    }
    Ok(())
}

/// Counts one open precondition of an operator less. Where none is left, that one has the greatest value of them, and
/// the operator is relaxed.
fn count_down(
    problem: &Relaxed,
    k: u32,
    cost: u64,
    counters: &mut Vec<u32>,
    numbers: &mut Vec<u64>,
    queue: &mut Queue,
) -> Result<(), OutOfMemory>
    requires operator { k < length problem.now.operators }
    requires counted { vec_len counters.old ≡ length problem.now.operators }
    requires sized { vec_len numbers.old ≡ problem.now.facts }
    requires reached { count_at counters.old.items k ≤ 1
        → known cost ≡ greatest (value_at numbers.old.items) (operator_at problem.now.operators k).pre }
    ensures fallen { OnOk result (HaveFallen numbers.old.items queue.old
        numbers.new.items queue.new) }
    ensures stayed { OnOk result (HaveStayed cost numbers.old.items queue.old numbers.new.items queue.new) }
    ensures lowered { OnOk result (AreLowered counters.old.items (k ∷ []) counters.new.items) }
    ensures served { OnOk result (count_at counters.new.items k ≡ 0
        → IsServed problem.now.operators numbers.new.items queue.new k) }
    ensures below { OnOk result ((values : Values) → AreLow problem.now.operators values
        → AreBelow values numbers.old.items → AreBelow values numbers.new.items) }
    ensures counted { vec_len counters.new ≡ vec_len counters.old }
    ensures len { vec_len numbers.new ≡ vec_len numbers.old }
{
    let left = counters[k as usize].saturating_sub(1);
    counters[k as usize] = left;
    if left == 0 {
        relax(problem, k, cost, numbers, queue)?;
    }
    Ok(())
}

/// Counts down each of some operators, as often as it is named, for a fact of a number.
fn count_down_all(
    problem: &Relaxed,
    operators: &[u32],
    cost: u64,
    counters: &mut Vec<u32>,
    numbers: &mut Vec<u64>,
    queue: &mut Queue,
) -> Result<(), OutOfMemory>
    requires operators { All (λ k. k < length problem.now.operators) operators.now }
    requires counted { vec_len counters.old ≡ length problem.now.operators }
    requires sized { vec_len numbers.old ≡ problem.now.facts }
    requires reached { (k : ℕ) → k < length problem.now.operators → 1 ≤ times k operators.now
        → count_at counters.old.items k ≤ times k operators.now
        → IsMost cost numbers.old.items (operator_at problem.now.operators k).pre }
    ensures fallen { OnOk result (HaveFallen numbers.old.items queue.old
        numbers.new.items queue.new) }
    ensures stayed { OnOk result (HaveStayed cost numbers.old.items queue.old numbers.new.items queue.new) }
    ensures lowered { OnOk result (AreLowered counters.old.items operators.now counters.new.items) }
    ensures served { OnOk result ((k : ℕ) → 1 ≤ times k operators.now
        → count_at counters.new.items k ≡ 0
        → IsServed problem.now.operators numbers.new.items queue.new k) }
    ensures below { OnOk result ((values : Values) → AreLow problem.now.operators values
        → AreBelow values numbers.old.items → AreBelow values numbers.new.items) }
    ensures counted { vec_len counters.new ≡ vec_len counters.old }
    ensures len { vec_len numbers.new ≡ vec_len numbers.old }
{
    for k in operators {
        count_down(problem, *k, cost, counters, numbers, queue)?;
    }
    Ok(())
}

/// Counts all preconditions as open.
fn recount(problem: &Relaxed, counters: &mut Vec<u32>)
    requires { vec_len counters.old ≡ length problem.now.operators }
    ensures count { (k : ℕ) → count_at counters.new.items k
        ≡ length (operator_at problem.now.operators k).pre }
    ensures len { vec_len counters.new ≡ vec_len counters.old }
{
    counters.as_mut_slice().copy_from_slice(problem.counts());
}

/// The place of the first of some facts that has a number greater than a cost.
fn first_above(numbers: &[u64], facts: &[u32], cost: u64) -> Option<usize>
    requires { All (λ x. x < length numbers.now) facts.now }
    ensures { IfNone result (All (λ x. number_at numbers.now x ≤ cost) facts.now) }
{
    for at in 0..facts.len() {
        if cost < numbers[facts[at] as usize] {
            return Some(at);
        }
    }
    None
}

/// Whether there are some facts and all have numbers of at most a cost. The fact at one place is looked at before all
/// others, and that place is put to a fact with a greater number, so that most calls look at one fact.
fn are_low(numbers: &[u64], facts: &[u32], cost: u64, at: &mut usize) -> bool
    requires { All (λ x. x < length numbers.now) facts.now }
    ensures some { result ≡ true → 0 < length facts.now }
    ensures low { result ≡ true → All (λ x. number_at numbers.now x ≤ cost) facts.now }
{
    if *at >= facts.len() {
        return false;
    }
    if cost < numbers[facts[*at] as usize] {
        return false;
    }
    match first_above(numbers, facts, cost) {
        Some(next) => {
            *at = next;
            false
        }
        None => true,
    }
}

/// Settles the fact of least cost that waits, until none does, or all of some facts that are wanted are settled, if any
/// are: it is no precondition that is open any more. An entry whose fact has another number by now is out of date. An
/// operator is relaxed where none of its preconditions is open: the last one of them that was settled has the greatest
/// value, since numbers in the queue never get less than the one that was taken last.
pub(crate) fn settle(
    problem: &Relaxed,
    wanted: &[u32],
    counters: &mut Vec<u32>,
    numbers: &mut Vec<u64>,
    queue: &mut Queue,
) -> Result<(), OutOfMemory>
    requires counted { vec_len counters.old ≡ length problem.now.operators }
    requires sized { vec_len numbers.old ≡ problem.now.facts }
    requires inside { All (λ (k : Key). k.1 < vec_len numbers.old) queue.old }
    requires served { (k : ℕ) → k < length problem.now.operators
        → IsServed problem.now.operators numbers.old.items queue.old k }
    requires all_open { (x : ℕ) → IsOpen numbers.old.items queue.old x }
    requires proper { IsProper numbers.old.items queue.old }
    requires wanted { All (λ x. x < vec_len numbers.old) wanted.now }
    ensures lower { OnOk result ((x : ℕ) → number_at numbers.new.items x ≤ number_at numbers.old.items x) }
    ensures served { OnOk result (length wanted.now ≡ 0 → (k : ℕ) → k < length problem.now.operators
        → IsServed problem.now.operators numbers.new.items [] k) }
    ensures settled { OnOk result (AreSettled problem.now.operators numbers.new.items wanted.now) }
    ensures below { OnOk result ((values : Values) → AreLow problem.now.operators values
        → AreBelow values numbers.old.items → AreBelow values numbers.new.items) }
    ensures counted { vec_len counters.new ≡ vec_len counters.old }
    ensures len { vec_len numbers.new ≡ vec_len numbers.old }
{
    recount(problem, counters);
    let mut at = 0;
    'pops: while let Some((cost, x)) = queue.pop() {
        if are_low(numbers.as_slice(), wanted, cost, &mut at) {
            return Ok(());
        }
        if cost == numbers[x as usize] {
            count_down_all(problem, problem.users(x), cost, counters, numbers, queue)?;
        }
    }
    Ok(())
}

/// Takes all values away.
fn forget(numbers: &mut Vec<u64>)
    ensures none { All (λ n. n ≡ unknown) numbers.new.items }
    ensures len { vec_len numbers.new ≡ vec_len numbers.old }
{
    numbers.as_mut_slice().fill(u64::MAX);
}

/// Gives the members of a set, above an offset, the number 0.
fn mark(
    numbers: &mut Vec<u64>,
    queue: &mut Queue,
    members: &Bits,
    offset: u32,
) -> Result<(), OutOfMemory>
    requires room { offset + members.now.size ≤ vec_len numbers.old }
    requires few { vec_len numbers.old < 2 ^ 32 }
    ensures fallen { OnOk result (HaveFallen numbers.old.items queue.old
        numbers.new.items queue.new) }
    ensures zero { OnOk result ((x : ℕ) → IsTrue (set.contains members.now.members x)
        → number_at numbers.new.items (offset + x) ≤ 0) }
    ensures below { OnOk result ((values : Values)
        → ((x : ℕ) → x < members.now.size → IsTrue (set.contains members.now.members x)
        → AtMost (values (offset + x)) (Some 0))
        → AreBelow values numbers.old.items → AreBelow values numbers.new.items) }
    ensures len { vec_len numbers.new ≡ vec_len numbers.old }
{
    let mut from = 0;
    'members: while let Some(x) = members.least_from(from) {
        lower(numbers, queue, offset + x, 0)?;
        from = x + 1;
    }
    Ok(())
}

/// Gives the facts of a state the number 0, and relaxes the operators without preconditions.
fn begin(
    problem: &Relaxed,
    publics: &Bits,
    privates: &Bits,
    numbers: &mut Vec<u64>,
    queue: &mut Queue,
) -> Result<(), OutOfMemory>
    requires sized { vec_len numbers.old ≡ problem.now.facts }
    requires few { problem.now.facts < 2 ^ 32 }
    requires publics { publics.now.size ≡ problem.now.publics }
    requires privates { problem.now.publics + privates.now.size ≡ problem.now.facts }
    ensures inside { OnOk result (All (λ (k : Key). k.1 < vec_len numbers.new) queue.new) }
    ensures served { OnOk result ((k : ℕ) → k < length problem.now.operators
        → IsServed problem.now.operators numbers.new.items queue.new k) }
    ensures zero_publics { OnOk result ((x : ℕ) → IsTrue (set.contains publics.now.members x)
        → number_at numbers.new.items (0 + x) ≤ 0) }
    ensures zero_privates { OnOk result ((x : ℕ) → IsTrue (set.contains privates.now.members x)
        → number_at numbers.new.items (problem.now.publics + x) ≤ 0) }
    ensures below { OnOk result ((values : Values) → AreLow problem.now.operators values
        → ((x : ℕ) → x < publics.now.size → IsTrue (set.contains publics.now.members x)
        → AtMost (values (0 + x)) (Some 0))
        → ((x : ℕ) → x < privates.now.size → IsTrue (set.contains privates.now.members x)
        → AtMost (values (problem.now.publics + x)) (Some 0))
        → AreBelow values numbers.new.items) }
    ensures all_open { OnOk result ((x : ℕ) → IsOpen numbers.new.items queue.new x) }
    ensures proper { OnOk result (IsProper numbers.new.items queue.new) }
    ensures len { vec_len numbers.new ≡ vec_len numbers.old }
{
    forget(numbers);
    queue.clear();
    mark(numbers, queue, publics, 0)?;
    mark(numbers, queue, privates, problem.publics())?;
    relax_each(problem, problem.free(), numbers, queue)?;
    Ok(())
}

/// Finds the values of some facts for a state, and of those that cost no more than the dearest of them; where none are
/// wanted, the values of all facts.
pub(crate) fn find_values(
    problem: &Relaxed,
    publics: &Bits,
    privates: &Bits,
    wanted: &[u32],
    counters: &mut Vec<u32>,
    numbers: &mut Vec<u64>,
    queue: &mut Queue,
) -> Result<(), OutOfMemory>
    requires counted { vec_len counters.old ≡ length problem.now.operators }
    requires sized { vec_len numbers.old ≡ problem.now.facts }
    requires publics { publics.now.size ≡ problem.now.publics }
    requires privates { problem.now.publics + privates.now.size ≡ problem.now.facts }
    requires wanted { All (λ x. x < problem.now.facts) wanted.now }
    ensures found { OnOk result (AreFound problem.now publics.now.members privates.now.members wanted.now
        numbers.new.items) }
    ensures counted { vec_len counters.new ≡ vec_len counters.old }
    ensures len { vec_len numbers.new ≡ vec_len numbers.old }
{
    let _ = problem.operators();
    let _ = problem.facts();
    begin(problem, publics, privates, numbers, queue)?;
    settle(problem, wanted, counters, numbers, queue)?;
    Ok(())
}

/// Settles the facts that wait, until none does: each operator that has a settled fact as a precondition is relaxed. In any
/// order of the queue nothing is missed; in the order of their numbers few facts are settled twice.
fn settle_again(
    problem: &Relaxed,
    numbers: &mut Vec<u64>,
    queue: &mut Queue,
) -> Result<(), OutOfMemory>
    requires sized { vec_len numbers.old ≡ problem.now.facts }
    requires inside { All (λ (k : Key). k.1 < vec_len numbers.old) queue.old }
    ensures lower { OnOk result ((x : ℕ) → number_at numbers.new.items x ≤ number_at numbers.old.items x) }
    ensures served { OnOk result (
        ((k : ℕ) → k < length problem.now.operators
        → IsServed problem.now.operators numbers.old.items queue.old k)
        → (k : ℕ) → k < length problem.now.operators
        → IsServed problem.now.operators numbers.new.items [] k) }
    ensures below { OnOk result ((values : Values) → AreLow problem.now.operators values
        → AreBelow values numbers.old.items → AreBelow values numbers.new.items) }
    ensures len { vec_len numbers.new ≡ vec_len numbers.old }
{
    'pops: while let Some((cost, x)) = queue.pop() {
        if cost == numbers[x as usize] {
            relax_users(problem, x, problem.users(x), numbers, queue)?;
        }
    }
    Ok(())
}

/// Finds the values of all facts again, where some operators got cheaper since they were found: no other operator lowers a
/// number, until one of its preconditions has got a lower one.
pub(crate) fn find_again(
    problem: &Relaxed,
    cheaper: &[u32],
    numbers: &mut Vec<u64>,
    queue: &mut Queue,
) -> Result<(), OutOfMemory>
    requires operators { All (λ k. k < length problem.now.operators) cheaper.now }
    requires sized { vec_len numbers.old ≡ problem.now.facts }
    ensures values { OnOk result ((before : List Operator) (publics privates : Numbers)
        → AreCheaper before problem.now.operators cheaper.now
        → AreValues (record problem.now { operators = before }) publics privates numbers.old.items
        → AreValues problem.now publics privates numbers.new.items) }
    ensures len { vec_len numbers.new ≡ vec_len numbers.old }
{
    let _ = problem.operators();
    queue.clear();
    relax_each(problem, cheaper, numbers, queue)?;
    settle_again(problem, numbers, queue)?;
    Ok(())
}
