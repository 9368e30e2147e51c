//! The delivery family.

ghost use Rattle.std.specs.Prelude.{◌≡◌, ◌≤◌, IfOk};
ghost use Rattle.mp_maker.specs.Domain.{domain as domain_of};
ghost use Rattle.mp_maker.specs.Delivery.{delivery as delivery_of};

use crate::problem::problem_file;
use mp_list::{List, OutOfMemory};
use mp_sexp::Name;
use std::alloc::Global;

/// Texts of files, each without a capital letter.
pub type TextList = List<Name>;

/// The domain of every agent.
const DOMAIN: &str = "(define (domain delivery)
 (:requirements :typing :action-costs :factored-privacy)
 (:types place parcel)
 (:predicates (at ?p - parcel ?x - place)
  (:private (pos ?x - place) (in ?p - parcel) (road ?x ?y - place)))
 (:functions (total-cost) - number
  (:private (dist ?x ?y - place) - number))
 (:action move :parameters (?x ?y - place)
  :precondition (and (pos ?x) (road ?x ?y))
  :effect (and (pos ?y) (not (pos ?x)) (increase (total-cost) (dist ?x ?y))))
 (:action load :parameters (?p - parcel ?x - place)
  :precondition (and (pos ?x) (at ?p ?x))
  :effect (and (in ?p) (not (at ?p ?x)) (increase (total-cost) 1)))
 (:action unload :parameters (?p - parcel ?x - place)
  :precondition (and (pos ?x) (in ?p))
  :effect (and (at ?p ?x) (not (in ?p)) (increase (total-cost) 1))))
";

/// The domain of every agent, as a text.
fn domain(alloc: Global) -> Result<Name, OutOfMemory>
    ensures { IfOk result (λ text. text ≡ domain_of) }
{
    Name::folded(alloc, DOMAIN.as_bytes())
}

/// The files of a team of so many agents that hand a box on, each from one place to the next, at costs that a number
/// chooses: an agent's domain and then its problem, one agent after another. The cheapest plan has four steps for each
/// agent. Refuses only for want of memory.
pub fn delivery(alloc: Global, size: u16, number: u32) -> Result<TextList, OutOfMemory>
    requires some { 1 ≤ size }
    requires size { size ≤ 8 }
    requires number { number ≤ 999999 }
    ensures { IfOk result (λ texts. texts ≡ delivery_of size number) }
{
    let mut texts = List::new(alloc);
    for agent in 1..size + 1 {
        texts.push(domain(alloc)?)?;
        texts.push(problem_file(alloc, size, number, agent)?)?;
    }
    Ok(texts)
}
