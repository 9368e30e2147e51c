//! The values of facts for one state after another.

ghost use Rattle.std.specs.Prelude.{◌≡◌, ◌<◌, ◌+◌, All, List, length, IfOk, OnOk};
ghost use Rattle.mp_sets.specs.Numbers.{Numbers};
ghost use Rattle.mp_task.specs.Strips.{Operator};
ghost use Rattle.mp_estimates.specs.Lowering.{value_at};
ghost use Rattle.mp_relaxed.specs.Relaxed.{AreCheaper, state_of};
ghost use Rattle.mp_relaxed.specs.Search.{AreValues};
ghost use Rattle.mp_relaxed.specs.Values.{fact_values, greatest};

use crate::queue::Queue;
use crate::relaxed::Relaxed;
use crate::search::{find_again, find_values, greatest_of};
use mp_list::OutOfMemory;
use mp_sets::Bits;
use std::alloc::Global;
use std::marker::Model;

/// The numbers of facts, and what the search for them works with. It keeps its arrays from call to call, so that a
/// search takes memory only where its queue grows.
#[derive(Drop)]
pub struct Search {
    counters: Vec<u32>,
    numbers: Vec<u64>,
    queue: Queue,
}

impl Model for Search {
    ghost use Rattle.mp_relaxed.specs.SearchFields.{SearchArrays, search_arrays};

    ghost Value = { SearchArrays };

    ghost view = { search_arrays };
}

impl Search {
    /// For a problem. Refuses only for want of memory.
    pub fn new(alloc: Global, problem: &Relaxed) -> Result<Search, OutOfMemory>
        ensures operators { IfOk result (λ made. made.operators ≡ length problem.now.operators) }
        ensures facts { IfOk result (λ made. length made.numbers ≡ problem.now.facts) }
    {
        let counters = vec![in alloc; 0; problem.counts().len()]?;
        let numbers = vec![in alloc; u64::MAX; problem.facts() as usize]?;
        Ok(Search {
            counters,
            numbers,
            queue: Queue::new(alloc),
        })
    }

    /// Finds the values of all facts for a state of the problem. Refuses only for want of memory.
    pub fn find(
        &mut self,
        problem: &Relaxed,
        publics: &Bits,
        privates: &Bits,
    ) -> Result<(), OutOfMemory>
        requires operators { self.old.operators ≡ length problem.now.operators }
        requires facts { length self.old.numbers ≡ problem.now.facts }
        requires publics { publics.now.size ≡ problem.now.publics }
        requires privates { problem.now.publics + privates.now.size ≡ problem.now.facts }
        ensures values { OnOk result (AreValues problem.now publics.now.members privates.now.members
            self.new.numbers) }
        ensures operators { self.new.operators ≡ self.old.operators }
        ensures facts { length self.new.numbers ≡ length self.old.numbers }
    {
        find_values(
            problem,
            publics,
            privates,
            &[],
            &mut self.counters,
            &mut self.numbers,
            &mut self.queue,
        )
    }

    /// Finds the greatest value of some facts for a state of the problem: 0 without any, and none where one of them has
    /// none. It leaves facts aside that cost more than these, so the numbers that it leaves are not the values of all facts.
    /// Refuses only for want of memory.
    pub fn find_greatest(
        &mut self,
        problem: &Relaxed,
        publics: &Bits,
        privates: &Bits,
        facts: &[u32],
    ) -> Result<Option<u64>, OutOfMemory>
        requires operators { self.old.operators ≡ length problem.now.operators }
        requires facts { length self.old.numbers ≡ problem.now.facts }
        requires publics { publics.now.size ≡ problem.now.publics }
        requires privates { problem.now.publics + privates.now.size ≡ problem.now.facts }
        requires within { All (λ x. x < problem.now.facts) facts.now }
        ensures value { IfOk result (λ found. found ≡ greatest
            (fact_values problem.now.operators (state_of problem.now publics.now.members privates.now.members))
            facts.now) }
        ensures operators { self.new.operators ≡ self.old.operators }
        ensures facts { length self.new.numbers ≡ length self.old.numbers }
    {
        if facts.is_empty() {
            return Ok(Some(0));
        }
        find_values(
            problem,
            publics,
            privates,
            facts,
            &mut self.counters,
            &mut self.numbers,
            &mut self.queue,
        )?;
        Ok(self.greatest(facts))
    }

    /// Finds the values of all facts again for the same state, where some operators got cheaper since they were found. Refuses
    /// only for want of memory.
    pub fn again(&mut self, problem: &Relaxed, cheaper: &[u32]) -> Result<(), OutOfMemory>
        requires facts { length self.old.numbers ≡ problem.now.facts }
        requires operators { All (λ k. k < length problem.now.operators) cheaper.now }
        ensures values { OnOk result ((before : List Operator) (publics privates : Numbers)
            → AreCheaper before problem.now.operators cheaper.now
            → AreValues (record problem.now { operators = before }) publics privates self.old.numbers
            → AreValues problem.now publics privates self.new.numbers) }
        ensures operators { self.new.operators ≡ self.old.operators }
        ensures facts { length self.new.numbers ≡ length self.old.numbers }
    {
        find_again(problem, cheaper, &mut self.numbers, &mut self.queue)
    }

    /// The numbers of the facts: the greatest one that there is stands for none.
    pub fn numbers(&self) -> &[u64]
        ensures { result.now ≡ self.now.numbers }
    {
        self.numbers.as_slice()
    }

    /// The greatest value of some facts: 0 without any, and none where one of them has none.
    pub fn greatest(&self, facts: &[u32]) -> Option<u64>
        requires { All (λ x. x < length self.now.numbers) facts.now }
        ensures { result ≡ greatest (value_at self.now.numbers) facts.now }
    {
        let most = greatest_of(self.numbers.as_slice(), facts);
        if most < u64::MAX { Some(most) } else { None }
    }
}
