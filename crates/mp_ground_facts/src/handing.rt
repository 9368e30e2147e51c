//! The facts that actions and goals name, handed on one after another.

ghost use Rattle.std.specs.Prelude.{◌≡◌, ◌∷◌, [], map, OnOk};
ghost use Rattle.std.specs.List.{fold};
ghost use Rattle.mp_lifted.specs.Atoms.{atom_at, atoms_at};
ghost use Rattle.mp_ground_facts.specs.Facts.{fact_of, complement};
ghost use Rattle.mp_ground_facts.specs.Touched.{needed, added, deleted, goal_facts, with_complements};

use crate::among::changes_complement;
use crate::key::FactKey;
use crate::takes::TakesFacts;
use mp_lifted::{GroundAtom, LiftedAction, LiftedAtom, LiftedFactor, add_objects, is_private};
use mp_list::OutOfMemory;

/// Objects for the parameters of an action of a factor.
#[derive(Clone, Copy)]
pub struct Binding<'a> {
    pub factor: &'a LiftedFactor,
    /// The object for each parameter, by its number.
    pub objects: &'a [u32],
}

/// Hands a fact on, or its complement.
fn hand<T: TakesFacts>(
    taker: &mut T,
    factor: &LiftedFactor,
    is_complement: bool,
    predicate: u32,
    objects: &[u32],
) -> Result<(), OutOfMemory>
    ensures { OnOk result (taker.new ≡ T.after taker.old
        (fact_of factor.now is_complement (record { symbol = predicate; args = objects.now }))) }
{
    taker.take(FactKey {
        is_public: !is_private(factor, predicate, objects),
        is_complement,
        predicate,
        objects,
    })
}

/// Hands the fact of an atom on, or its complement. What `scratch` has is lost, here and in what follows.
fn hand_atom<T: TakesFacts>(
    taker: &mut T,
    scratch: &mut Vec<u32>,
    binding: Binding<'_>,
    is_complement: bool,
    atom: &LiftedAtom,
) -> Result<(), OutOfMemory>
    ensures { OnOk result (taker.new ≡ T.after taker.old
        (fact_of binding.entry.factor.now is_complement (atom_at binding.entry.objects.now atom.now))) }
{
    scratch.clear();
    add_objects(scratch, binding.objects, atom)?;
    let symbol = atom.symbol;
    hand(
        taker,
        binding.factor,
        is_complement,
        symbol,
        scratch.as_slice(),
    )
}

/// Hands the facts of atoms on, or their complements.
fn hand_atoms<T: TakesFacts>(
    taker: &mut T,
    scratch: &mut Vec<u32>,
    binding: Binding<'_>,
    is_complement: bool,
    atoms: &[LiftedAtom],
) -> Result<(), OutOfMemory>
    ensures { OnOk result (taker.new ≡ fold T.after taker.old
        (map (fact_of binding.entry.factor.now is_complement) (atoms_at binding.entry.objects.now atoms.now))) }
{
    for atom in atoms {
        hand_atom(taker, scratch, binding, is_complement, atom)?;
    }
    Ok(())
}

/// Hands the complement of an atom on that has one and is none of others.
fn hand_complement<T: TakesFacts>(
    taker: &mut T,
    scratch: &mut Vec<u32>,
    binding: Binding<'_>,
    others: &[LiftedAtom],
    atom: &LiftedAtom,
) -> Result<(), OutOfMemory>
    ensures { OnOk result (taker.new ≡ fold T.after taker.old
        (map (complement binding.entry.factor.now) (with_complements binding.entry.factor.now
        (atoms_at binding.entry.objects.now others.now) (atom_at binding.entry.objects.now atom.now ∷ [])))) }
{
    if changes_complement(binding.factor, binding.objects, others, atom) {
        hand_atom(taker, scratch, binding, true, atom)?;
    }
    Ok(())
}

/// Hands the complements of those atoms on that have one and are none of others.
fn hand_complements<T: TakesFacts>(
    taker: &mut T,
    scratch: &mut Vec<u32>,
    binding: Binding<'_>,
    others: &[LiftedAtom],
    atoms: &[LiftedAtom],
) -> Result<(), OutOfMemory>
    ensures { OnOk result (taker.new ≡ fold T.after taker.old
        (map (complement binding.entry.factor.now) (with_complements binding.entry.factor.now
        (atoms_at binding.entry.objects.now others.now) (atoms_at binding.entry.objects.now atoms.now)))) }
{
    for atom in atoms {
        hand_complement(taker, scratch, binding, others, atom)?;
    }
    Ok(())
}

/// Hands on what an action needs.
#[tactic(auto, using(crate::proofs::Steps::fold_steps))]
pub fn hand_needed<T: TakesFacts>(
    taker: &mut T,
    scratch: &mut Vec<u32>,
    binding: Binding<'_>,
    action: &LiftedAction,
) -> Result<(), OutOfMemory>
    ensures { OnOk result (taker.new
        ≡ fold T.after taker.old (needed binding.entry.factor.now action.now binding.entry.objects.now)) }
{
    let positive = action.positive.as_slice();
    let negative = action.negative.as_slice();
    hand_atoms(taker, scratch, binding, false, positive)?;
    hand_atoms(taker, scratch, binding, true, negative)
}

/// Hands on what an action adds.
#[tactic(auto, using(crate::proofs::Steps::fold_steps))]
pub fn hand_added<T: TakesFacts>(
    taker: &mut T,
    scratch: &mut Vec<u32>,
    binding: Binding<'_>,
    action: &LiftedAction,
) -> Result<(), OutOfMemory>
    ensures { OnOk result (taker.new
        ≡ fold T.after taker.old (added binding.entry.factor.now action.now binding.entry.objects.now)) }
{
    let adds = action.add.as_slice();
    let dels = action.del.as_slice();
    hand_atoms(taker, scratch, binding, false, adds)?;
    hand_complements(taker, scratch, binding, adds, dels)
}

/// Hands on what an action deletes.
#[tactic(auto, using(crate::proofs::Steps::fold_steps))]
pub fn hand_deleted<T: TakesFacts>(
    taker: &mut T,
    scratch: &mut Vec<u32>,
    binding: Binding<'_>,
    action: &LiftedAction,
) -> Result<(), OutOfMemory>
    ensures { OnOk result (taker.new
        ≡ fold T.after taker.old (deleted binding.entry.factor.now action.now binding.entry.objects.now)) }
{
    let dels = action.del.as_slice();
    let adds = action.add.as_slice();
    hand_atoms(taker, scratch, binding, false, dels)?;
    hand_complements(taker, scratch, binding, &[], adds)
}

/// Hands facts on, or their complements.
fn hand_facts<T: TakesFacts>(
    taker: &mut T,
    factor: &LiftedFactor,
    is_complement: bool,
    atoms: &[GroundAtom],
) -> Result<(), OutOfMemory>
    ensures { OnOk result (taker.new
        ≡ fold T.after taker.old (map (fact_of factor.now is_complement) atoms.now)) }
{
    for atom in atoms {
        let objects = atom.args.as_slice();
        hand(taker, factor, is_complement, atom.symbol, objects)?;
    }
    Ok(())
}

/// Hands on what goals ask for.
#[tactic(auto, using(crate::proofs::Steps::fold_steps))]
pub fn hand_goals<T: TakesFacts>(taker: &mut T, factor: &LiftedFactor) -> Result<(), OutOfMemory>
    ensures { OnOk result (taker.new ≡ fold T.after taker.old (goal_facts factor.now)) }
{
    hand_facts(taker, factor, false, factor.goals.as_slice())?;
    hand_facts(taker, factor, true, factor.avoided.as_slice())
}
