//! Patterns: lists of facts, and sets of facts of them.

ghost use Rattle.std.specs.Prelude.{◌≡◌, ℕ, ◌<◌, ◌≤◌, ◌+◌, ◌^◌, ◌++◌, ◌∷◌, [], All, map, take, length, IfOk, OnOk, Some, if◌then◌else◌};
ghost use Rattle.mp_task.specs.Projected.{facts_of};
ghost use Rattle.mp_pdb.specs.Masks.{Shows};
ghost use Rattle.mp_estimates.specs.Estimates.{lesser};
ghost use Rattle.mp_pdb.specs.Pattern.{is_in, least, missing_among};

use mp_list::OutOfMemory;
use mp_sets::FactList;
use std::alloc::Global;
use std::marker::Model;

/// How many facts a pattern has at most.
pub(crate) const MOST: usize = 12;

/// A list of facts below a size, and for each fact the places at which it stands in it, as a set of places: bit i for place
/// i. Contracts see the size and the list.
#[derive(Drop)]
pub(crate) struct Pattern {
    facts: Vec<u32>,
    places: Vec<u16>,
}

impl Model for Pattern {
    ghost use Rattle.mp_pdb.specs.Masks.{ArePlaces, SizedPattern};
    ghost use Rattle.mp_pdb.specs.PatternFields.{sized_pattern};

    ghost Value = { SizedPattern };

    ghost view = { sized_pattern };

    ghost invariant = { λ p. ArePlaces p.facts.items p.places.items };
}

impl Pattern {
    /// The empty pattern. Refuses only for want of memory.
    pub(crate) fn new(alloc: Global, size: u32) -> Result<Pattern, OutOfMemory>
        ensures { IfOk result (λ made. made ≡ record { size = size; facts = [] }) }
    {
        Ok(Pattern {
            facts: Vec::new(alloc),
            places: vec![in alloc; 0u16; size as usize]?,
        })
    }

    pub(crate) fn len(&self) -> usize
        ensures len { result ≡ length self.now.facts }
        ensures few { length self.now.facts ≤ 12 }
        ensures small { self.now.size < 2 ^ 32 }
        ensures below { All (λ x. x < self.now.size) self.now.facts }
    {
        self.facts.len()
    }

    /// The facts.
    pub(crate) fn into_facts(self) -> Vec<u32>
        ensures { result.items ≡ self.facts }
    {
        let Pattern { facts, places: _ } = self;
        facts
    }

    /// One more fact at the end. Refuses only for want of memory.
    pub(crate) fn push(&mut self, fact: u32) -> Result<(), OutOfMemory>
        requires below { fact < self.old.size }
        requires room { length self.old.facts < 12 }
        ensures { OnOk result (self.new ≡ record self.old { facts = self.old.facts ++ fact ∷ [] }) }
    {
        let place = self.facts.len();
        self.facts.push(fact)?;
        self.places[fact as usize] |= 1 << place;
        Ok(())
    }

    /// Facts whose numbers stand above an offset, as many as there is room for. Refuses only for want of memory.
    pub(crate) fn push_first(&mut self, offset: u32, facts: &[u32]) -> Result<(), OutOfMemory>
        requires { All (λ k. offset + k < self.old.size) facts.now }
        ensures { OnOk result (self.new ≡ record self.old {
          facts = take 12 (self.old.facts ++ map (λ k. offset + k) facts.now);
        }) }
    {
        let mut room = MOST - self.len();
        for k in facts {
            if room == 0 {
                return Ok(());
            }
            self.push(offset + *k)?;
            room -= 1;
        }
        Ok(())
    }

    /// Whether a fact is in the pattern.
    pub(crate) fn has(&self, fact: u32) -> bool
        requires { fact < self.now.size }
        ensures { result ≡ is_in self.now.facts fact }
    {
        self.places[fact as usize] != 0
    }

    /// Which facts of the pattern are among some, whose numbers stand above an offset.
    pub(crate) fn mask(&self, offset: u32, facts: &[u32]) -> u16
        requires { All (λ k. offset + k < self.now.size) facts.now }
        ensures { Shows self.now.facts (is_in (map (λ k. offset + k) facts.now)) result }
    {
        let mut mask = 0;
        for k in facts {
            mask |= self.places[(offset + *k) as usize];
        }
        mask
    }

    /// Which facts of the pattern are among some public and some private ones of a projected problem.
    pub(crate) fn mask_of(&self, publics: u32, pub_facts: &FactList, priv_facts: &FactList) -> u16
        requires publics { All (λ x. x < self.now.size) pub_facts.now }
        requires privates { All (λ k. publics + k < self.now.size) priv_facts.now }
        ensures { Shows self.now.facts (is_in (facts_of publics pub_facts.now priv_facts.now)) result }
    {
        self.mask(0, pub_facts.as_slice()) | self.mask(publics, priv_facts.as_slice())
    }

    /// Which facts of the pattern are among some public ones.
    pub(crate) fn mask_of_publics(&self, facts: &FactList) -> u16
        requires { All (λ x. x < self.now.size) facts.now }
        ensures { Shows self.now.facts (is_in facts.now) result }
    {
        self.mask(0, facts.as_slice())
    }

    /// The lowest of a fact and of those of some facts, whose numbers stand above an offset, that are not in the pattern.
    pub(crate) fn lowest_missing(
        &self,
        offset: u32,
        facts: &[u32],
        lowest: Option<u32>,
    ) -> Option<u32>
        requires { All (λ k. offset + k < self.now.size) facts.now }
        ensures { result ≡ lesser lowest
            (least (missing_among self.now.facts (map (λ k. offset + k) facts.now))) }
    {
        let _ = &self.facts;
        let mut lowest = lowest;
        for k in facts {
            lowest = self.lowest_with(offset + *k, lowest);
        }
        lowest
    }

    /// The lesser one of a fact and another, where that one is not in the pattern.
    fn lowest_with(&self, fact: u32, lowest: Option<u32>) -> Option<u32>
        requires { fact < self.now.size }
        ensures { result ≡ (if is_in self.now.facts fact then lowest else lesser lowest (Some fact)) }
    {
        if self.has(fact) {
            return lowest;
        }
        match lowest {
            None => Some(fact),
            Some(other) => Some(other.min(fact)),
        }
    }
}
