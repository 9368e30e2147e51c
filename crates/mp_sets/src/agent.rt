//! Agents, numbered from 1 in the order of their files.

ghost use Rattle.std.specs.Prelude.{◌≡◌, ◌≤◌, ◌↔◌, IsSome, IfSome};

use mp_list::{Copied, OutOfMemory};
use std::marker::Model;

/// One of at most 16 agents. Contracts see it as its number, from 1 to 16.
#[derive(Clone, Copy, Debug, PartialEq, Eq, PartialOrd, Ord, Hash)]
pub struct Agent {
    number: u16,
}

impl Model for Agent {
    ghost use Rattle.std.specs.Prelude.{ℕ, ◌≤◌};

    ghost Value = { ℕ };

    ghost view = { λ a. a.number };

    ghost invariant = { λ a. (1 ≤ a.number) × (a.number ≤ 16) };

    ghost inverse = { λ n. record { number = n } };
}

impl Agent {
    /// The agent of a number: none exactly where the number is 0 or above 16.
    pub fn new(number: u16) -> Option<Agent>
        ensures some { IsSome result ↔ ((1 ≤ number) × (number ≤ 16)) }
        ensures value { IfSome result (λ agent. agent ≡ number) }
    {
        if number == 0 || number > 16 {
            return None;
        }
        Some(Agent { number })
    }

    /// The first agent.
    pub fn first() -> Agent
        ensures { result ≡ 1 }
    {
        Agent { number: 1 }
    }

    /// Its number.
    pub fn number(self) -> u16
        ensures number { result ≡ self }
        ensures range { (1 ≤ result) × (result ≤ 16) }
    {
        self.number
    }
}

impl Copied for Agent {
    fn copy(&self) -> Result<Agent, OutOfMemory> {
        Ok(*self)
    }
}
