//! Public parts of actions in the order of their lines.

ghost use Rattle.std.specs.Prelude.{◌≡◌, ◌==◌, map, reverse, IfOk};
ghost use Rattle.std.specs.Ordering.{nat_cmp, on, as_partial_cmp};
ghost use Rattle.std.specs.Cmp.{partial_order_from_own_ties};
ghost use Rattle.std.specs.Cmp.Rules.{comparing};
ghost use Rattle.std.specs.Cmp.Lexicographic.{pointwise, slice_cmp};
ghost use Rattle.std.proofs.Common.{rules};
ghost use Rattle.mp_views.specs.Lines.{part_line};
ghost use Rattle.mp_views.specs.Parts.{sorted_parts as parts_sorted};

use crate::lines::push_part;
use crate::view::{Part, PartList};
use mp_list::{List, OutOfMemory};
use mp_messages::Bytes;
use std::alloc::Global;
use std::cmp::Ordering;

/// A part with its line, by which alone it is compared.
#[derive(Drop)]
struct LinedPart {
    line: Bytes,
    part: Part,
}

impl PartialEq for LinedPart {
    ghost eq = { on (λ p. p.line) (pointwise ◌==◌) };

    ghost laws = { Prim.search (comparing, rules) };

    fn eq(&self, other: &LinedPart) -> bool {
        self.line == other.line
    }
}

impl Eq for LinedPart {
    ghost laws = { Prim.search (comparing, rules) };
}

impl PartialOrd for LinedPart {
    ghost partial_cmp = { as_partial_cmp (on (λ p. p.line) (slice_cmp nat_cmp)) };

    ghost laws = { partial_order_from_own_ties (Prim.search (comparing, rules)) (Prim.search (comparing, rules)) };

    fn partial_cmp(&self, other: &LinedPart) -> Option<Ordering> {
        Some(self.cmp(other))
    }
}

impl Ord for LinedPart {
    ghost cmp = { on (λ p. p.line) (slice_cmp nat_cmp) };

    ghost total = { Prim.search (comparing, rules) };

    ghost matches_partial_cmp = { Prim.search (comparing, rules) };

    ghost matches_eq = { Prim.search (comparing, rules) };

    fn cmp(&self, other: &LinedPart) -> Ordering {
        self.line.cmp(&other.line)
    }
}

/// A part with its line.
fn with_line(alloc: Global, part: Part) -> Result<LinedPart, OutOfMemory>
    ensures { IfOk result (λ made. made ≡ record { line = part_line part; part = part }) }
{
    let mut line = Bytes::new(alloc);
    push_part(&mut line, &part)?;
    Ok(LinedPart { line, part })
}

/// Parts with their lines, the last one first: so that of those of one line the last one comes first.
fn with_lines(alloc: Global, parts: Vec<Part>) -> Result<Vec<LinedPart>, OutOfMemory>
    ensures { IfOk result (λ lined. lined.items
        ≡ map (λ p. record { line = part_line p; part = p }) (reverse parts.items)) }
{
    let mut lined = Vec::with_capacity(alloc, parts.len())?;
    let mut left = parts;
    while let Some(part) = left.pop() {
        lined.push(with_line(alloc, part)?)?;
    }
    Ok(lined)
}

/// The parts without their lines, as a list.
fn list_of(alloc: Global, parts: Vec<LinedPart>) -> Result<PartList, OutOfMemory>
    ensures { IfOk result (λ list. list ≡ map (λ p. p.part) parts.items) }
{
    let mut list = List::with_capacity(alloc, parts.len())?;
    for lined in parts {
        let LinedPart { line, part } = lined;
        drop(line);
        list.push(part)?;
    }
    Ok(list)
}

/// Parts in the order of their lines, each line once. Refuses only for want of memory.
pub fn sorted_parts(alloc: Global, parts: Vec<Part>) -> Result<PartList, OutOfMemory>
    ensures { IfOk result (λ sorted. sorted ≡ parts_sorted parts.items) }
{
    let mut sorted = with_lines(alloc, parts)?;
    sorted.sort()?;
    sorted.dedup();
    list_of(alloc, sorted)
}
