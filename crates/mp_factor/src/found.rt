//! What is found in a tree: what it says, or the first of what is wrong with it.

ghost use Rattle.std.specs.Prelude.{◌≡◌, ◌++◌, ◌∷◌, [], IfOk};
ghost use Rattle.mp_sexp.specs.Node.{Node, node_of, nodes_in};
ghost use Rattle.mp_forms.specs.Reading.{Reading, all_right, alone, besides, costly, each, keyword, misshapen, nothing_more, unsupported, wanted};
ghost use Rattle.mp_factor.specs.Found.{found_in, both_found, second_found};

use crate::fault::{earlier, of_word, without_word};
use crate::trees::{is_keyword, place};
use mp_forms::{Fault, FaultKind};
use mp_list::{List, OutOfMemory};
use mp_sexp::{Place, Tree};
use std::alloc::Global;

/// What a tree says, or the first of what is wrong with it.
pub type Found<T> = Result<T, Fault>;

/// Two findings together: the earlier fault, where both have one.
pub fn pair<A: Drop, B: Drop>(first: Found<A>, second: Found<B>) -> Found<(A, B)>
    ensures { result ≡ both_found (λ a b. (a, b)) first second }
{
    match first {
        Ok(a) => match second {
            Ok(b) => Ok((a, b)),
            Err(fault) => Err(fault),
        },
        Err(known) => match second {
            Ok(_) => Err(known),
            Err(fault) => Err(earlier(known, fault)),
        },
    }
}

/// The second of two findings, where nothing is wrong with the first.
pub fn second<A: Drop, B: Drop>(first: Found<A>, second: Found<B>) -> Found<B>
    ensures { result ≡ second_found first second }
{
    match first {
        Ok(_) => second,
        Err(known) => match second {
            Ok(_) => Err(known),
            Err(fault) => Err(earlier(known, fault)),
        },
    }
}

/// Something stands at this place where none of its kind may, or lacks something.
pub fn shape_fault<T>(alloc: Global, place: Place) -> Found<T>
    ensures { result ≡ found_in {X = T} (misshapen place) }
{
    Err(without_word(alloc, place, FaultKind::Shape))
}

/// A word begins something that is not supported. Refuses only for want of memory.
pub fn word_fault<T>(alloc: Global, tree: &Tree) -> Result<Found<T>, OutOfMemory>
    ensures { IfOk result (λ found. found ≡ found_in {X = T} (unsupported (node_of tree.now))) }
{
    Ok(Err(of_word(alloc, tree)?))
}

/// A number or an increase at this place is none that is allowed.
pub fn cost_fault<T>(alloc: Global, place: Place) -> Found<T>
    ensures { result ≡ found_in {X = T} (costly place) }
{
    Err(without_word(alloc, place, FaultKind::Cost))
}

/// This word is wanted.
#[tactic(auto, unfolding(mp_forms::specs::Reading::keyword))]
pub fn expect(alloc: Global, word: &[u8], tree: &Tree) -> Found<()>
    ensures { result ≡ found_in (keyword word.now (node_of tree.now)) }
{
    if is_keyword(tree, word) {
        Ok(())
    } else {
        shape_fault(alloc, place(tree))
    }
}

/// Nothing more is wanted.
#[tactic(auto, unfolding(mp_forms::specs::Reading::nothing_more))]
pub fn expect_end(alloc: Global, trees: &[Tree]) -> Found<()>
    ensures { result ≡ found_in (nothing_more (nodes_in trees.now)) }
{
    match trees {
        [] => Ok(()),
        [tree, ..] => shape_fault(alloc, place(tree)),
    }
}

/// A form with the rule by which a tree is read as one.
pub trait Form<T> {
    ghost rule: { Self → Node → Reading T };

    /// What a tree says by the rule. Refuses only for want of memory.
    fn read(&self, alloc: Global, tree: &Tree) -> Result<Found<T>, OutOfMemory>
        ensures { IfOk result (λ found. found ≡ found_in (rule self.now (node_of tree.now))) };
}

/// The items so far and one more. Refuses only for want of memory.
pub fn add_item<T: Drop>(
    so_far: Found<List<T>>,
    item: Found<T>,
) -> Result<Found<List<T>>, OutOfMemory>
    ensures { IfOk result (λ found. found ≡ both_found (λ xs x. xs ++ x ∷ []) so_far item) }
{
    match pair(so_far, item) {
        Ok((mut items, item)) => {
            items.push(item)?;
            Ok(Ok(items))
        }
        Err(fault) => Ok(Err(fault)),
    }
}

/// What each of these trees says. Refuses only for want of memory.
pub fn read_each<T: Drop, F: Form<T>>(
    alloc: Global,
    form: &F,
    trees: &[Tree],
) -> Result<Found<List<T>>, OutOfMemory>
    ensures { IfOk result (λ found. found ≡ found_in (each (F.rule form.now) (nodes_in trees.now))) }
{
    let mut so_far = Ok(List::with_capacity(alloc, trees.len())?);
    for tree in trees {
        so_far = add_item(so_far, form.read(alloc, tree)?)?;
    }
    Ok(so_far)
}

/// Whether each of these trees is right, by a form that says nothing. Refuses only for want of memory.
pub fn check_each<F: Form<()>>(
    alloc: Global,
    form: &F,
    trees: &[Tree],
) -> Result<Found<()>, OutOfMemory>
    ensures { IfOk result (λ found. found ≡ found_in (all_right (F.rule form.now) (nodes_in trees.now))) }
{
    let mut so_far = Ok(());
    for tree in trees {
        so_far = second(so_far, form.read(alloc, tree)?);
    }
    Ok(so_far)
}

/// What the one member that is wanted says, in the list at this place. Refuses only for want of memory.
#[tactic(auto, unfolding(mp_forms::specs::Reading::wanted))]
pub fn read_wanted<T: Drop, F: Form<T>>(
    alloc: Global,
    form: &F,
    whole: Place,
    trees: &[Tree],
) -> Result<Found<T>, OutOfMemory>
    ensures { IfOk result (λ found. found ≡ found_in (wanted (F.rule form.now) whole (nodes_in trees.now))) }
{
    match trees {
        [] => Ok(shape_fault(alloc, whole)),
        [tree, ..] => form.read(alloc, tree),
    }
}

/// What a tree says behind which nothing more may stand. Refuses only for want of memory.
#[tactic(auto, using(crate::proofs::FoundLemmas::found_both))]
fn read_last<T: Drop, F: Form<T>>(
    alloc: Global,
    form: &F,
    tree: &Tree,
    extra: &[Tree],
) -> Result<Found<T>, OutOfMemory>
    ensures { IfOk result (λ found. found
        ≡ found_in (besides (nothing_more (nodes_in extra.now)) (F.rule form.now (node_of tree.now)))) }
{
    Ok(second(expect_end(alloc, extra), form.read(alloc, tree)?))
}

/// What the one member that may stand here says, in the list at this place. Refuses only for want of memory.
#[tactic(auto, unfolding(mp_forms::specs::Reading::alone))]
pub fn read_alone<T: Drop, F: Form<T>>(
    alloc: Global,
    form: &F,
    whole: Place,
    trees: &[Tree],
) -> Result<Found<T>, OutOfMemory>
    ensures { IfOk result (λ found. found ≡ found_in (alone (F.rule form.now) whole (nodes_in trees.now))) }
{
    match trees {
        [] => Ok(shape_fault(alloc, whole)),
        [tree, extra @ ..] => read_last(alloc, form, tree, extra),
    }
}
