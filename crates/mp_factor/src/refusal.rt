//! Why a tree is no domain or problem.

ghost use Rattle.mp_factor.specs.Shapes.{Says};

use mp_forms::{Fault, FaultKind};
use mp_list::OutOfMemory;
use mp_sexp::{Name, Place};
use thiserror::Error;

/// The first fault of a domain's or problem's tree, or want of memory.
#[derive(Debug, Drop, Error)]
pub enum ShapeRefusal {
    /// A word or list, which begins here, has no place in the shape of the file, or lacks something.
    #[error("shape")]
    Shape(Place),
    /// This word, which stands here, begins something that is not supported.
    #[error("unsupported")]
    Unsupported(Name, Place),
    /// The parameter that stands here is the thirteenth of its action.
    #[error("unsupported parameters")]
    Parameters(Place),
    /// The number or increase that begins here is no cost that is allowed: it has decimals other than zeros, is
    /// above 1,000,000, is the seventeenth increase of its action, or is another value of its function.
    #[error("cost")]
    Cost(Place),
    /// No memory was left.
    #[error("out of memory")]
    OutOfMemory,
}

impl From<OutOfMemory> for ShapeRefusal {
    ghost use Rattle.std.specs.Prelude.{◌≡◌};
    ghost use Rattle.mp_factor.specs.declared.refusal.ShapeRefusal.TheVariants as refusals;

    ghost from_gives = { λ _ e. e ≡ refusals.OutOfMemory };

    fn from(_e: OutOfMemory) -> ShapeRefusal {
        ShapeRefusal::OutOfMemory
    }
}

/// The refusal of a tree with this fault.
pub fn refusal_of(fault: Fault) -> ShapeRefusal
    ensures { Says fault result }
{
    let Fault { place, kind, word } = fault;
    match kind {
        FaultKind::Shape => ShapeRefusal::Shape(place),
        FaultKind::Unsupported => ShapeRefusal::Unsupported(word, place),
        FaultKind::Parameters => ShapeRefusal::Parameters(place),
        FaultKind::Cost => ShapeRefusal::Cost(place),
    }
}
