//! Atoms and actions in numbers.

use mp_list::List;

/// A term of an action that has parameters.
#[derive(Clone, Copy, Debug, PartialEq, Eq)]
pub enum LiftedTerm {
    /// What stands for the parameter at this place, from 0.
    Parameter(u32),
    /// The object with this number.
    Object(u32),
}

/// A predicate or function, by its number, and its terms.
#[derive(Drop)]
pub struct LiftedAtom {
    pub symbol: u32,
    pub terms: List<LiftedTerm>,
}

/// A predicate or function, by its number, at objects.
#[derive(Drop)]
pub struct GroundAtom {
    pub symbol: u32,
    pub args: List<u32>,
}

/// What an increase adds to the cost.
#[derive(Drop)]
pub enum Amount {
    Number(u64),
    /// The value of a function.
    Value(LiftedAtom),
    /// The total cost itself, which has no value: no instance has a cost that depends on it.
    Missing,
}

/// An action in numbers, as it is written. Its preconditions are parted by whether their predicate is
/// static.
pub struct LiftedAction {
    /// For each parameter the objects that may stand for it, in object order.
    pub members: List<List<u32>>,
    pub static_positive: List<LiftedAtom>,
    pub static_negative: List<LiftedAtom>,
    pub positive: List<LiftedAtom>,
    pub negative: List<LiftedAtom>,
    pub add: List<LiftedAtom>,
    pub del: List<LiftedAtom>,
    /// What its cost is the sum of.
    pub amounts: List<Amount>,
}

impl Drop for LiftedAction {
    fn drop(self) {
        let LiftedAction {
            members: _,
            static_positive: _,
            static_negative: _,
            positive: _,
            negative: _,
            add: _,
            del: _,
            amounts: _,
        } = self;
    }
}

/// The value of a function at objects.
#[derive(Drop)]
pub struct GroundValue {
    pub of: GroundAtom,
    pub cost: u64,
}

/// A factor in numbers. Objects are numbered in object order, and predicates and functions as they are
/// declared, each from 0.
pub struct LiftedFactor {
    /// For each predicate whether it is private.
    pub private_predicates: List<bool>,
    /// For each predicate whether its facts have complements.
    pub negated_predicates: List<bool>,
    /// For each object whether it is private.
    pub private_objects: List<bool>,
    pub actions: List<LiftedAction>,
    /// The private initial facts of the factor.
    pub init: List<GroundAtom>,
    /// The public facts that are true at the start, of all agents, as far as this factor can name them.
    pub known: List<GroundAtom>,
    /// The facts that the goals ask for.
    pub goals: List<GroundAtom>,
    /// The facts that the goals negate.
    pub avoided: List<GroundAtom>,
    /// The values of its functions at the start, but for that of the total cost.
    pub values: List<GroundValue>,
}

impl Drop for LiftedFactor {
    fn drop(self) {
        let LiftedFactor {
            private_predicates: _,
            negated_predicates: _,
            private_objects: _,
            actions: _,
            init: _,
            known: _,
            goals: _,
            avoided: _,
            values: _,
        } = self;
    }
}
