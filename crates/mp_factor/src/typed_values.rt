//! Typed lists: items, behind which may stand `-` and their type.

ghost use Rattle.std.specs.Prelude.{◌≡◌, ◌&&◌, ◌<◌, ◌≤◌, ◌++◌, ◌∷◌, [], false, Err, List, length, map, codes, IfOk, OnOk};
ghost use Rattle.std.specs.List.{position};
ghost use Rattle.mp_sexp.specs.Node.{node_of, nodes_in};
ghost use Rattle.mp_forms.specs.Reading.{besides, each, keyword, said};
ghost use Rattle.mp_factor.specs.Found.{found_in, both_found, more_found, said_found};
ghost use Rattle.mp_factor.specs.FoundForms.{items_found, group_found, ends, group_size, AreBehindItems};
ghost use Rattle.mp_forms.specs.Rules.Words.{name_rule};
ghost use Rattle.mp_forms.specs.Rules.Typed.{Listing as ListingOf, is_dash, typed_from, type_first, typed_rule, block_rule, type_rule, typed_of, with_type, is_no_word, plain, with_blocks};

use crate::found::{Form, Found, add_item, expect, pair, second, shape_fault};
use crate::trees::{is_keyword, is_list_tree, members, place, split};
use crate::word::{NameForm, VariableForm};
use mp_forms::{Typed, TypedList, Word, WordList};
use mp_list::{Copied, List, OutOfMemory, SmallList};
use mp_sexp::{Place, Tree};
use std::alloc::Global;

/// What the items of a typed list are, and their types.
pub trait Listing<X, T> {
    ghost listing: { Self → ListingOf X T };

    /// What an item of this type declares. Refuses only for want of memory.
    fn read_item(&self, alloc: Global, item_type: &T, tree: &Tree) -> Result<Found<X>, OutOfMemory>
        ensures { IfOk result (λ found. found
            ≡ said_found (λ make. make item_type.now) (found_in ((listing self.now).item (node_of tree.now)))) };

    /// Whether `-` and a type may stand behind an item.
    fn takes_type(&self) -> bool
        ensures { result ≡ (listing self.now).takes_type };

    /// A type. Refuses only for want of memory.
    fn read_type(&self, alloc: Global, tree: &Tree) -> Result<Found<T>, OutOfMemory>
        ensures { IfOk result (λ found. found ≡ found_in ((listing self.now).type (node_of tree.now))) };

    /// The type of an item behind which none stands.
    fn untyped(&self, alloc: Global) -> T
        ensures { result ≡ (listing self.now).untyped };

    /// Whether a tree is no item, as a block is.
    fn is_block(&self, tree: &Tree) -> bool
        ensures { result ≡ (listing self.now).is_block (node_of tree.now) };

    /// What a block declares. Refuses only for want of memory.
    fn read_block(&self, alloc: Global, tree: &Tree) -> Result<Found<List<X>>, OutOfMemory>
        ensures { IfOk result (λ found. found ≡ found_in ((listing self.now).block (node_of tree.now))) };
}

/// Whether a tree is the `-` before a type.
fn is_type_sign<X, T, L: Listing<X, T>>(listing: &L, tree: &Tree) -> bool
    ensures { result ≡ ((L.listing listing.now).takes_type && is_dash (node_of tree.now)) }
{
    listing.takes_type() && is_keyword(tree, b"-")
}

/// Whether a tree ends the items of one type that stand before it: what is no item, or `-` before their type.
fn ends_items<X, T, L: Listing<X, T>>(listing: &L, tree: &Tree) -> bool
    ensures { result ≡ ends (L.listing listing.now) (node_of tree.now) }
{
    is_type_sign(listing, tree) || listing.is_block(tree)
}

/// The place of the first of these trees that ends the items of one type.
fn first_end<X, T, L: Listing<X, T>>(listing: &L, trees: &[Tree]) -> Option<usize>
    ensures { result ≡ position (λ t. ends (L.listing listing.now) (node_of t)) trees.now }
{
    trees.iter().position(|tree| ends_items(listing, tree))
}

/// How many of these trees come before it: all where none ends them.
#[tactic(auto, using(crate::proofs::TypedLemmas::size_within))]
fn group_len<X, T, L: Listing<X, T>>(listing: &L, trees: &[Tree]) -> usize
    ensures size { result ≡ group_size (L.listing listing.now) (nodes_in trees.now) }
    ensures within { result ≤ length trees.now }
{
    first_end(listing, trees).unwrap_or(trees.len())
}

/// The type that these trees begin with, and what stands behind it. Refuses only for want of memory.
#[tactic(auto, using(crate::proofs::FoundLemmas::found_both), unfolding(mp_forms::specs::Rules::Typed::type_first, mp_forms::specs::Rules::Typed::typed_from))]
fn type_first_of<'t, X, T, L: Listing<X, T>>(
    alloc: Global,
    listing: &L,
    whole: Place,
    trees: &'t [Tree],
) -> Result<(Found<T>, &'t [Tree]), OutOfMemory>
    ensures first { IfOk result (λ p. both_found with_type p.0 (found_in (typed_from (L.listing listing.now) whole false (nodes_in p.1.now)))
        ≡ found_in (type_first (L.listing listing.now) whole (nodes_in trees.now))) }
    ensures fewer { IfOk result (λ p. length p.1.now ≤ length trees.now) }
{
    match trees {
        [] => Ok((shape_fault(alloc, whole), trees)),
        [tree, behind @ ..] => Ok((listing.read_type(alloc, tree)?, behind)),
    }
}

/// The type of the items that stand before these trees, and what stands behind it. Refuses only for want of memory.
fn type_behind<'t, X, T, L: Listing<X, T>>(
    alloc: Global,
    listing: &L,
    whole: Place,
    trees: &'t [Tree],
) -> Result<(Found<T>, &'t [Tree]), OutOfMemory>
    ensures first { IfOk result (λ p. AreBehindItems (L.listing listing.now) (nodes_in trees.now)
        → both_found with_type p.0 (found_in (typed_from (L.listing listing.now) whole false (nodes_in p.1.now)))
        ≡ found_in (typed_from (L.listing listing.now) whole (L.listing listing.now).takes_type (nodes_in trees.now))) }
    ensures fewer { IfOk result (λ p. length p.1.now ≤ length trees.now) }
{
    match trees {
        [] => Ok((Ok(listing.untyped(alloc)), trees)),
        [dash, behind @ ..] => {
            if is_type_sign(listing, dash) {
                let (item_type, rest) = type_first_of(alloc, listing, whole, behind)?;
                Ok((item_type, rest))
            } else {
                Ok((Ok(listing.untyped(alloc)), trees))
            }
        }
    }
}

/// Items of one type.
#[derive(Clone, Copy)]
struct Group<'t> {
    first: &'t Tree,
    others: &'t [Tree],
}

/// The items so far and those of this type. Refuses only for want of memory.
fn with_items<X: Drop, T, L: Listing<X, T>>(
    alloc: Global,
    listing: &L,
    so_far: Found<List<X>>,
    item_type: &T,
    trees: &[Tree],
) -> Result<Found<List<X>>, OutOfMemory>
    ensures { IfOk result (λ found. found ≡ more_found so_far
        (found_in (each (λ n. said (λ make. make item_type.now) ((L.listing listing.now).item n)) (nodes_in trees.now)))) }
{
    let mut items = so_far;
    for tree in trees {
        items = add_item(items, listing.read_item(alloc, item_type, tree)?)?;
    }
    Ok(items)
}

/// The items so far and those of a group, which are of this type. Refuses only for want of memory.
fn with_group_of<X: Drop, T, L: Listing<X, T>>(
    alloc: Global,
    listing: &L,
    so_far: Found<List<X>>,
    item_type: &T,
    group: Group<'_>,
) -> Result<Found<List<X>>, OutOfMemory>
    ensures { IfOk result (λ found. found ≡ more_found so_far (said_found (λ makes. map (λ make. make item_type.now) makes)
        (found_in (each (L.listing listing.now).item (node_of group.entry.first.now ∷ nodes_in group.entry.others.now))))) }
{
    let first = listing.read_item(alloc, item_type, group.first)?;
    let items = add_item(so_far, first)?;
    let all = with_items(alloc, listing, items, item_type, group.others)?;
    Ok(all)
}

/// The items so far and those of a group, of the type that is found. Refuses only for want of memory.
fn with_group<X: Drop, T: Drop, L: Listing<X, T>>(
    alloc: Global,
    listing: &L,
    so_far: Found<List<X>>,
    item_type: Found<T>,
    group: Group<'_>,
) -> Result<Found<List<X>>, OutOfMemory>
    ensures { IfOk result (λ found. found ≡ more_found so_far (group_found
        (found_in (each (L.listing listing.now).item (node_of group.entry.first.now ∷ nodes_in group.entry.others.now))) item_type)) }
{
    match item_type {
        Ok(item_type) => {
            let items = with_group_of(alloc, listing, so_far, &item_type, group)?;
            Ok(items)
        }
        Err(fault) => {
            let item_type = listing.untyped(alloc);
            let items = with_group_of(alloc, listing, so_far, &item_type, group)?;
            Ok(second(items, Err(fault)))
        }
    }
}

/// The items of one list and then those of another. Refuses only for want of memory.
pub fn append<X: Drop>(items: &mut List<X>, more: List<X>) -> Result<(), OutOfMemory>
    ensures { OnOk result (items.new ≡ items.old ++ more) }
{
    for item in more.into_items() {
        items.push(item)?;
    }
    Ok(())
}

/// The items so far and those of a block. Refuses only for want of memory.
fn add_block<X: Drop>(
    so_far: Found<List<X>>,
    block: Found<List<X>>,
) -> Result<Found<List<X>>, OutOfMemory>
    ensures { IfOk result (λ found. found ≡ more_found so_far block) }
{
    match pair(so_far, block) {
        Ok((mut items, block)) => {
            append(&mut items, block)?;
            Ok(Ok(items))
        }
        Err(fault) => Ok(Err(fault)),
    }
}

/// What is read of a typed list so far, and what is left of it.
#[derive(Drop)]
struct Progress<'t, X> {
    so_far: Found<List<X>>,
    rest: &'t [Tree],
}

/// Reads a block, or items of one type and their type. Refuses only for want of memory.
fn step<'t, X: Drop, T: Drop, L: Listing<X, T>>(
    alloc: Global,
    listing: &L,
    whole: Place,
    progress: Progress<'t, X>,
) -> Result<Progress<'t, X>, OutOfMemory>
    ensures kept { IfOk result (λ p. more_found p.so_far (items_found (found_in (typed_from (L.listing listing.now) whole false (nodes_in p.rest.now))))
        ≡ more_found progress.entry.so_far (items_found (found_in (typed_from (L.listing listing.now) whole false (nodes_in progress.entry.rest.now))))) }
    ensures fewer { IfOk result (λ p. 0 < length progress.entry.rest.now → length p.rest.now < length progress.entry.rest.now) }
{
    let Progress { so_far, rest } = progress;
    match rest {
        [] => Ok(Progress { so_far, rest }),
        [first, behind @ ..] => {
            if listing.is_block(first) {
                let so_far = add_block(so_far, listing.read_block(alloc, first)?)?;
                return Ok(Progress {
                    so_far,
                    rest: behind,
                });
            }
            let (others, tail) = split(behind, group_len(listing, behind));
            let (item_type, rest) = type_behind(alloc, listing, whole, tail)?;
            let group = Group { first, others };
            let so_far = with_group(alloc, listing, so_far, item_type, group)?;
            Ok(Progress { so_far, rest })
        }
    }
}

/// A typed list in the list at this place. Refuses only for want of memory.
pub fn read_typed<X: Drop, T: Drop, L: Listing<X, T>>(
    alloc: Global,
    listing: &L,
    whole: Place,
    trees: &[Tree],
) -> Result<Found<List<X>>, OutOfMemory>
    ensures { IfOk result (λ found. found ≡ found_in (typed_rule (L.listing listing.now) whole (nodes_in trees.now))) }
{
    // An item with a type of its own takes three trees.
    let mut progress = Progress {
        so_far: Ok(List::with_capacity(alloc, trees.len() / 3)?),
        rest: trees,
    };
    while !progress.rest.is_empty() {
        progress = step(alloc, listing, whole, progress)?;
    }
    Ok(progress.so_far)
}

/// A private block of such a list. Refuses only for want of memory.
#[tactic(auto, unfolding(mp_forms::specs::Rules::Typed::block_rule))]
fn read_block_of<X: Drop, T: Drop, L: Listing<X, T>>(
    alloc: Global,
    listing: &L,
    tree: &Tree,
) -> Result<Found<List<X>>, OutOfMemory>
    ensures { IfOk result (λ found. found ≡ found_in (block_rule (L.listing listing.now) (node_of tree.now))) }
{
    match members(tree) {
        [] => Ok(shape_fault(alloc, place(tree))),
        [head, inside @ ..] => {
            if is_keyword(head, b":private") {
                read_typed(alloc, listing, place(tree), inside)
            } else {
                Ok(shape_fault(alloc, place(head)))
            }
        }
    }
}

/// A listing in which private blocks may stand.
#[derive(Clone, Copy)]
pub struct WithBlocks<L> {
    pub public: L,
    /// What stands in such a block.
    pub private: L,
}

impl<X: Drop, T: Drop, L: Listing<X, T>> Listing<X, T> for WithBlocks<L> {
    ghost listing = { λ list. with_blocks (L.listing list.public) (L.listing list.private) };

    fn read_item(
        &self,
        alloc: Global,
        item_type: &T,
        tree: &Tree,
    ) -> Result<Found<X>, OutOfMemory> {
        self.public.read_item(alloc, item_type, tree)
    }

    fn takes_type(&self) -> bool {
        self.public.takes_type()
    }

    fn read_type(&self, alloc: Global, tree: &Tree) -> Result<Found<T>, OutOfMemory> {
        self.public.read_type(alloc, tree)
    }

    fn untyped(&self, alloc: Global) -> T {
        self.public.untyped(alloc)
    }

    fn is_block(&self, tree: &Tree) -> bool {
        self.public.is_block(tree)
    }

    fn read_block(&self, alloc: Global, tree: &Tree) -> Result<Found<List<X>>, OutOfMemory> {
        read_block_of(alloc, &self.private, tree)
    }
}

/// The one word of a type.
fn one_type(alloc: Global, name: Found<Word>) -> Result<Found<WordList>, OutOfMemory>
    ensures { IfOk result (λ found. found ≡ said_found (λ word. word ∷ []) name) }
{
    match name {
        Ok(word) => {
            let mut types = SmallList::new(alloc);
            types.push(word)?;
            Ok(Ok(types))
        }
        Err(fault) => Ok(Err(fault)),
    }
}

/// The words so far and one more. Refuses only for want of memory.
fn with_word(so_far: Found<WordList>, word: Found<Word>) -> Result<Found<WordList>, OutOfMemory>
    ensures { IfOk result (λ found. found ≡ both_found (λ xs x. xs ++ x ∷ []) so_far word) }
{
    match pair(so_far, word) {
        Ok((mut words, word)) => {
            words.push(word)?;
            Ok(Ok(words))
        }
        Err(fault) => Ok(Err(fault)),
    }
}

/// Names. Refuses only for want of memory.
fn read_names(alloc: Global, trees: &[Tree]) -> Result<Found<WordList>, OutOfMemory>
    ensures { IfOk result (λ found. found ≡ found_in (each name_rule (nodes_in trees.now))) }
{
    let mut so_far = Ok(SmallList::new(alloc));
    for tree in trees {
        so_far = with_word(so_far, NameForm.read(alloc, tree)?)?;
    }
    Ok(so_far)
}

/// `either` and names. Refuses only for want of memory.
#[tactic(auto, using(crate::proofs::FoundLemmas::found_both))]
fn read_either(alloc: Global, head: &Tree, names: &[Tree]) -> Result<Found<WordList>, OutOfMemory>
    ensures { IfOk result (λ found. found
        ≡ found_in (besides (keyword (codes "either") (node_of head.now)) (each name_rule (nodes_in names.now)))) }
{
    let either = expect(alloc, b"either", head);
    Ok(second(either, read_names(alloc, names)?))
}

/// A type: a name, or `either` and names in brackets.
#[derive(Clone, Copy)]
pub struct TypeForm;

#[tactic(auto, using(crate::proofs::FoundLemmas::found_said), unfolding(mp_forms::specs::Rules::Typed::type_rule))]
impl Form<WordList> for TypeForm {
    ghost rule = { λ form node. type_rule node };

    fn read(&self, alloc: Global, tree: &Tree) -> Result<Found<WordList>, OutOfMemory> {
        if !is_list_tree(tree) {
            return one_type(alloc, NameForm.read(alloc, tree)?);
        }
        match members(tree) {
            [] => Ok(shape_fault(alloc, place(tree))),
            [head, names @ ..] => read_either(alloc, head, names),
        }
    }
}

/// This word, declared with these types.
fn declared(private: bool, word: Found<Word>, types: &WordList) -> Result<Found<Typed>, OutOfMemory>
    ensures { IfOk result (λ found. found ≡ said_found (λ word. typed_of private word types.now) word) }
{
    match word {
        Ok(word) => Ok(Ok(Typed {
            word,
            types: types.copy()?,
            private,
        })),
        Err(fault) => Ok(Err(fault)),
    }
}

/// Whether a tree is a list, or `-`, in the place of a word.
fn is_not_a_word(tree: &Tree) -> bool
    ensures { result ≡ is_no_word (node_of tree.now) }
{
    is_list_tree(tree) || is_keyword(tree, b"-")
}

/// Words of a form, without blocks.
#[derive(Clone, Copy)]
pub struct Plain<W> {
    /// Whether they stand in a private block.
    pub private: bool,
    pub word: W,
}

impl<W: Form<Word>> Listing<Typed, WordList> for Plain<W> {
    ghost listing = { λ items. plain items.private (W.rule items.word) };

    fn read_item(
        &self,
        alloc: Global,
        item_type: &WordList,
        tree: &Tree,
    ) -> Result<Found<Typed>, OutOfMemory> {
        declared(self.private, self.word.read(alloc, tree)?, item_type)
    }

    fn takes_type(&self) -> bool {
        true
    }

    fn read_type(&self, alloc: Global, tree: &Tree) -> Result<Found<WordList>, OutOfMemory> {
        TypeForm.read(alloc, tree)
    }

    fn untyped(&self, alloc: Global) -> WordList {
        SmallList::new(alloc)
    }

    fn is_block(&self, tree: &Tree) -> bool {
        is_not_a_word(tree)
    }

    fn read_block(&self, alloc: Global, tree: &Tree) -> Result<Found<TypedList>, OutOfMemory> {
        Ok(shape_fault(alloc, place(tree)))
    }
}

/// A list of variables.
pub const VARIABLES: Plain<VariableForm> = Plain {
    private: false,
    word: VariableForm,
};

/// A list of names.
pub const NAMES: Plain<NameForm> = Plain {
    private: false,
    word: NameForm,
};

/// A list of names in a private block.
const PRIVATE_NAMES: Plain<NameForm> = Plain {
    private: true,
    word: NameForm,
};

/// A list of objects, and of private blocks of them.
pub const OBJECTS: WithBlocks<Plain<NameForm>> = WithBlocks {
    public: NAMES,
    private: PRIVATE_NAMES,
};
