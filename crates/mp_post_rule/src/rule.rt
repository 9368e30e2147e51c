//! The rule, and the kinds of steps.

use crate::kept::Slot;
use crate::view::View;
use atomic_table::{Join, Play, Split, Table, TableRule};
use crossbeam_utils::CachePadded;
use std::alloc::Global;

/// The rule of the posts of so many agents.
pub struct Rule;

impl TableRule<CachePadded<Slot>, View, u16> for Rule {
    ghost use Rattle.mp_post_rule.specs.Rule.{IsKept};
    ghost use Rattle.mp_post_rule.specs.Views.{first_view};

    ghost holds = { λ agents s. IsKept agents s };

    ghost first = { first_view };
}

/// The posts of a team, which threads share.
pub type Posts = Table<CachePadded<Slot>, View, u16, Rule, Global>;

/// A try for a turn.
pub struct Try;

impl Play<CachePadded<Slot>, View> for Try {
    ghost use Rattle.mp_post_rule.specs.Kinds.{tried};

    ghost then = { tried };
}

/// A batch is signed.
pub struct Sign;

impl Play<CachePadded<Slot>, View> for Sign {
    ghost use Rattle.mp_post_rule.specs.Kinds.{signed};

    ghost then = { signed };
}

/// A party is halted.
pub struct Halt;

impl Play<CachePadded<Slot>, View> for Halt {
    ghost use Rattle.mp_post_rule.specs.Kinds.{halted};

    ghost then = { halted };
}

/// A receipt is signed.
pub struct Receive;

impl Play<CachePadded<Slot>, View> for Receive {
    ghost use Rattle.mp_post_rule.specs.Kinds.{received};

    ghost then = { received };
}

/// A turn is released.
pub struct Release;

impl Play<CachePadded<Slot>, View> for Release {
    ghost use Rattle.mp_post_rule.specs.Kinds.{released};

    ghost then = { released };
}

/// A look, which changes nothing.
pub struct Look;

impl Play<CachePadded<Slot>, View> for Look {
    ghost use Rattle.mp_post_rule.specs.Kinds.{looked};

    ghost then = { looked };
}

/// A party goes to a new seat.
pub struct Apart<const PARTY: u16>;

impl<const PARTY: u16> Split<View> for Apart<PARTY> {
    ghost use Rattle.mp_post_rule.specs.Views.{alone, without};

    ghost left = { without PARTY };

    ghost right = { alone PARTY };
}

/// A seat takes over the parties of another.
pub struct Together;

impl Join<View> for Together {
    ghost use Rattle.mp_post_rule.specs.Views.{spent, together};

    ghost both = { together };

    ghost spent = { spent };
}
