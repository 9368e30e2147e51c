//! The delete relaxation of a projected problem in flat arrays.

ghost use Rattle.std.specs.Prelude.{◌≡◌, ℕ, ◌<◌, ◌≤◌, ◌+◌, ◌^◌, All, length, map, slice_index_or, [], IfOk};
ghost use Rattle.mp_task.specs.Limits.{IsWithinLimits};
ghost use Rattle.mp_task.specs.Projected.{projected};
ghost use Rattle.mp_relaxed.specs.Dominated.{IsEquivalent};
ghost use Rattle.mp_relaxed.specs.Relaxed.{AreAllFree, HasAdders, HasFree, HasUsers, delete_relaxation, operator_at, priced, with_cheaper};
ghost use Rattle.mp_relaxed.specs.Search.{count_at};

use crate::kept::{costs_at, kept_of};
use crate::rows::{Rows, gather};
use crate::users::{counts_of, free_of, users_of};
use mp_list::{List, OutOfMemory};
use mp_task::Task;
use std::alloc::Global;
use std::marker::Model;

/// The operators of a projected problem without their deletes, at costs that may change. Contracts see the problem;
/// beside it stand, for each fact, the operators that have it as a precondition, the operators without preconditions,
/// and how many preconditions each operator has.
#[derive(Drop)]
pub struct Relaxed {
    publics: u32,
    facts: u32,
    pres: Rows,
    adds: Rows,
    costs: Vec<u64>,
    goals: Vec<u32>,
    users: Vec<List<u32>>,
    free: Vec<u32>,
    counts: Vec<u32>,
}

impl Model for Relaxed {
    ghost use Rattle.mp_relaxed.specs.Relaxed.{RelaxedProblem};
    ghost use Rattle.mp_relaxed.specs.RelaxedFields.{relaxed_problem, IsSound};

    ghost Value = { RelaxedProblem };

    ghost view = { relaxed_problem };

    ghost invariant = { IsSound };
}

/// How many operators there are.
fn operators_of(task: &Task) -> usize {
    task.acts.len().saturating_add(task.far.len())
}

/// How many preconditions and how many adds the operators have. All of them are in memory, so no sum is too great.
fn count_facts(task: &Task) -> (usize, usize) {
    let mut pres: usize = 0;
    let mut adds: usize = 0;
    for act in task.acts.as_slice() {
        pres = pres
            .saturating_add(act.pre_pub.len())
            .saturating_add(act.pre_priv.len());
        adds = adds
            .saturating_add(act.add_pub.len())
            .saturating_add(act.add_priv.len());
    }
    for part in task.far.as_slice() {
        pres = pres.saturating_add(part.pre.len());
        adds = adds.saturating_add(part.add.len());
    }
    (pres, adds)
}

/// The preconditions of the operators, with memory for this many.
fn pres_of(alloc: Global, task: &Task, count: usize) -> Result<Rows, OutOfMemory>
    ensures { IfOk result (λ rows. rows ≡ map (λ o. o.pre) (projected task.now).operators) }
{
    let mut rows = Rows::with_capacity(alloc, operators_of(task), count)?;
    for act in task.acts.as_slice() {
        rows.push_facts(task.publics, &act.pre_pub, &act.pre_priv)?;
    }
    for part in task.far.as_slice() {
        rows.push(part.pre.as_slice())?;
    }
    Ok(rows)
}

/// The facts that the operators add, with memory for this many.
fn adds_of(alloc: Global, task: &Task, count: usize) -> Result<Rows, OutOfMemory>
    ensures { IfOk result (λ rows. rows ≡ map (λ o. o.add) (projected task.now).operators) }
{
    let mut rows = Rows::with_capacity(alloc, operators_of(task), count)?;
    for act in task.acts.as_slice() {
        rows.push_facts(task.publics, &act.add_pub, &act.add_priv)?;
    }
    for part in task.far.as_slice() {
        rows.push(part.add.as_slice())?;
    }
    Ok(rows)
}

/// What the operators cost.
fn costs_of(alloc: Global, task: &Task) -> Result<Vec<u64>, OutOfMemory>
    ensures { IfOk result (λ costs. costs.items ≡ map (λ o. o.cost) (projected task.now).operators) }
{
    let mut costs = Vec::with_capacity(alloc, operators_of(task))?;
    for act in task.acts.as_slice() {
        costs.push(act.cost)?;
    }
    for part in task.far.as_slice() {
        costs.push(part.cost)?;
    }
    Ok(costs)
}

impl Relaxed {
    /// The delete relaxation of a task's projected problem. Refuses only for want of memory.
    pub fn of(alloc: Global, task: &Task) -> Result<Relaxed, OutOfMemory>
        ensures made { IfOk result (λ made. made ≡ delete_relaxation task.now) }
        ensures limits { IfOk result (λ _. IsWithinLimits task.now) }
    {
        let (pre_count, add_count) = count_facts(task);
        let pres = pres_of(alloc, task, pre_count)?;
        let adds = adds_of(alloc, task, add_count)?;
        let costs = costs_of(alloc, task)?;
        let mut goals = Vec::new(alloc);
        gather(&mut goals, task.publics, &task.goal_pub, &task.goal_priv)?;
        let facts = task.publics + task.privates;
        let users = users_of(alloc, facts, &pres)?;
        let free = free_of(alloc, &pres)?;
        let counts = counts_of(alloc, &pres)?;
        Ok(Relaxed {
            publics: task.publics,
            facts,
            pres,
            adds,
            costs,
            goals,
            users,
            free,
            counts,
        })
    }

    /// The same problem with operators of it that are enough.
    fn fewer(&self, alloc: Global) -> Result<Relaxed, OutOfMemory>
        ensures { IfOk result (λ made. IsEquivalent made self.now) }
    {
        let kept = kept_of(alloc, self)?;
        let numbers = kept.as_slice();
        let pres = self.pres.rows_at(alloc, numbers)?;
        let adds = self.adds.rows_at(alloc, numbers)?;
        let costs = costs_at(alloc, self, numbers)?;
        let mut goals = Vec::with_capacity(alloc, self.goals.len())?;
        goals.extend_from_slice(self.goals.as_slice())?;
        let _ = self.operators();
        let users = users_of(alloc, self.facts, &pres)?;
        let free = free_of(alloc, &pres)?;
        let counts = counts_of(alloc, &pres)?;
        Ok(Relaxed {
            publics: self.publics,
            facts: self.facts,
            pres,
            adds,
            costs,
            goals,
            users,
            free,
            counts,
        })
    }

    /// The delete relaxation of a task's projected problem without operators beside which others were found that dominate them:
    /// values of facts and cuts are the same, and take less time. Refuses only for want of memory.
    pub fn reduced(alloc: Global, task: &Task) -> Result<Relaxed, OutOfMemory>
        ensures made { IfOk result (λ made. IsEquivalent made (delete_relaxation task.now)) }
        ensures limits { IfOk result (λ _. IsWithinLimits task.now) }
    {
        let all = Relaxed::of(alloc, task)?;
        all.fewer(alloc)
    }

    /// How many operators there are: at most 3,200,000, each of a cost of at most 16,000,000.
    pub fn operators(&self) -> u32
        ensures value { result ≡ length self.now.operators }
        ensures few { length self.now.operators ≤ 3200000 }
        ensures cheap { All (λ o. o.cost ≤ 16000000) self.now.operators }
    {
        self.pres.len() as u32
    }

    /// How many public facts there are.
    pub fn publics(&self) -> u32
        ensures { result ≡ self.now.publics }
    {
        self.publics
    }

    /// How many facts there are.
    pub fn facts(&self) -> u32
        ensures { result ≡ self.now.facts }
    {
        self.facts
    }

    /// The preconditions of an operator.
    pub fn pre(&self, k: u32) -> &[u32]
        requires { k < length self.now.operators }
        ensures value { result.now ≡ (operator_at self.now.operators k).pre }
        ensures below { All (λ x. x < self.now.facts) result.now }
    {
        self.pres.row(k as usize)
    }

    /// The facts that an operator adds.
    pub fn add(&self, k: u32) -> &[u32]
        requires { k < length self.now.operators }
        ensures value { result.now ≡ (operator_at self.now.operators k).add }
        ensures below { All (λ x. x < self.now.facts) result.now }
    {
        self.adds.row(k as usize)
    }

    /// What an operator costs.
    pub fn cost(&self, k: u32) -> u64
        requires { k < length self.now.operators }
        ensures { result ≡ (operator_at self.now.operators k).cost }
    {
        self.costs[k as usize]
    }

    /// What each operator costs, in their order. Refuses only for want of memory.
    pub fn costs(&self, alloc: Global) -> Result<Vec<u64>, OutOfMemory>
        ensures { IfOk result (λ costs. costs.items ≡ map (λ o. o.cost) self.now.operators) }
    {
        let mut costs = Vec::with_capacity(alloc, self.costs.len())?;
        costs.extend_from_slice(self.costs.as_slice())?;
        Ok(costs)
    }

    /// Gives each operator a cost.
    pub fn price(&mut self, costs: &[u64])
        requires each { length costs.now ≡ length self.old.operators }
        requires cheap { All (λ c. c ≤ 16000000) costs.now }
        ensures { self.new ≡ record self.old { operators = priced costs.now self.old.operators } }
    {
        self.costs.as_mut_slice().copy_from_slice(costs);
    }

    /// Makes an operator cheaper.
    pub fn lower(&mut self, k: u32, by: u64)
        requires operator { k < length self.old.operators }
        requires enough { by ≤ (operator_at self.old.operators k).cost }
        ensures { self.new ≡ record self.old { operators = with_cheaper k by self.old.operators } }
    {
        self.costs[k as usize] -= by;
    }

    /// For each fact the operators that add it. Refuses only for want of memory.
    pub fn adders(&self, alloc: Global) -> Result<Vec<List<u32>>, OutOfMemory>
        ensures each { IfOk result (λ lists. length lists.items ≡ self.now.facts) }
        ensures all { IfOk result (λ lists. (x : ℕ)
            → HasAdders self.now.operators x (slice_index_or lists.items x [])) }
        ensures below { IfOk result (λ lists. All (All (λ k. k < length self.now.operators)) lists.items) }
    {
        Ok(users_of(alloc, self.facts, &self.adds)?)
    }

    /// The goals.
    pub fn goals(&self) -> &[u32]
        ensures value { result.now ≡ self.now.goals }
        ensures below { All (λ x. x < self.now.facts) result.now }
    {
        self.goals.as_slice()
    }

    /// The operators that have a fact as a precondition, an operator as often as it has the fact.
    pub fn users(&self, x: u32) -> &[u32]
        requires { x < self.now.facts }
        ensures all { HasUsers self.now.operators x result.now }
        ensures below { All (λ k. k < length self.now.operators) result.now }
    {
        self.users[x as usize].as_slice()
    }

    /// The operators without preconditions.
    pub fn free(&self) -> &[u32]
        ensures all { HasFree self.now.operators result.now }
        ensures empty { AreAllFree self.now.operators result.now }
        ensures below { All (λ k. k < length self.now.operators) result.now }
    {
        self.free.as_slice()
    }

    /// How many preconditions each operator has.
    pub fn counts(&self) -> &[u32]
        ensures len { length result.now ≡ length self.now.operators }
        ensures count { (k : ℕ) → count_at result.now k ≡ length (operator_at self.now.operators k).pre }
    {
        self.counts.as_slice()
    }
}
