//! The tree of a text, or its first fault.

ghost use Rattle.std.specs.Prelude.{◌+◌, ◌<◌, ◌^◌, ◌≡◌, ◌⊎◌, List, ℕ, length, Err, IfOk, IfErr, IsOkAnd};
ghost use Rattle.mp_sexp.specs.declared.refusal.ReadRefusal.{ReadRefusal as Refusal};
ghost use Rattle.mp_sexp.specs.Fault.{ReadFault};
ghost use Rattle.mp_sexp.specs.Node.{Node, node_of};
ghost use Rattle.mp_sexp.specs.Spelling.{HasTree};

use crate::reader::tree_at;
use crate::refusal::ReadRefusal;
use crate::tree::Tree;
use std::alloc::Global;

/// The tree that a text spells, or its first fault from the left with its place. Goes over the text once.
pub fn read(alloc: Global, text: &[u8]) -> Result<Tree, ReadRefusal>
    requires { length text.now + 1 < 2 ^ 32 }
    // What is read is the text's tree, and its tree is read.
    ensures tree { IfOk result (λ tree. HasTree text.now (node_of tree)) }
    ensures found { (node : Node) → HasTree text.now node → (result ≡ Err ReadRefusal.OutOfMemory) ⊎ IsOkAnd result (λ tree. node_of tree ≡ node) }

    // What is refused is the text's first fault, and its first fault is refused.
    ensures fault { IfErr result (λ e. (e ≡ ReadRefusal.OutOfMemory) ⊎ ReadFault text.now e) }
    ensures refused { (e : Refusal) → ReadFault text.now e → (result ≡ Err ReadRefusal.OutOfMemory) ⊎ (result ≡ Err e) }
{
    tree_at(alloc, text)
}

/// A text has one tree, or else one first fault.
pub fn tree_or_fault()
    ensures one_tree { (text : List ℕ) (m n : Node) → HasTree text m → HasTree text n → m ≡ n }
    ensures one_fault { (text : List ℕ) (e f : Refusal) → ReadFault text e → ReadFault text f → e ≡ f }
    ensures not_both { (text : List ℕ) (n : Node) (e : Refusal) → HasTree text n → ReadFault text e → ⊥ }
    ensures either { (text : List ℕ) → ((n : Node) × HasTree text n) ⊎ ((e : Refusal) × ReadFault text e) }
{}
