//! Which atoms of an action change complements.

ghost use Rattle.std.specs.Prelude.{◌≡◌, ◌&&◌, not};
ghost use Rattle.mp_lifted.specs.Atoms.{atom_at, atoms_at, is_among};
ghost use Rattle.mp_lifted.specs.Start.{is_so};
ghost use Rattle.mp_ground_facts.specs.Facts.{has_complement};

use mp_lifted::{LiftedAtom, LiftedFactor, is_among_at};

/// Whether something is so of the predicate with a number.
fn is_flagged(flags: &[bool], predicate: u32) -> bool
    ensures { result ≡ is_so flags.now predicate }
{
    match flags.get(predicate as usize) {
        Some(flag) => *flag,
        None => false,
    }
}

/// Whether an atom has a complement and is none of others, where these objects stand for the
/// parameters.
pub fn changes_complement(
    factor: &LiftedFactor,
    objects: &[u32],
    others: &[LiftedAtom],
    atom: &LiftedAtom,
) -> bool
    ensures { result ≡ (has_complement factor.now (atom_at objects.now atom.now)
        && not (is_among (atom_at objects.now atom.now) (atoms_at objects.now others.now))) }
{
    is_flagged(factor.negated_predicates.as_slice(), atom.symbol)
        && !is_among_at(objects, atom, others)
}
