//! What the texts of a request are has at most one first refusal.

ghost use Rattle.std.specs.Prelude.{◌≡◌, List, Some};
ghost use Rattle.mp_forms.specs.declared.factor.Factor.{Factor};
ghost use Rattle.mp_joint.specs.Fact.{Text};
ghost use Rattle.mp_outside.specs.Source.{Files};
ghost use Rattle.mp_top.specs.Asked.{TeamRequest};
ghost use Rattle.mp_top.specs.First.{IsAccepted, IsFirst};
ghost use Rattle.mp_top.specs.FirstText.{AreTextsOf};
ghost use Rattle.mp_top.specs.Team.{IsTeam};
ghost use Rattle.mp_top.specs.declared.refusal.Refusal.{Refusal};

use mp_factor::first_fault_is_one;
use mp_optimality::refused_certificates_have_one_line;
use mp_replays::refused_lines_are_one;
use mp_sexp::tree_or_fault;
use mp_typing::first_fault_is_one as first_check_is_one;

/// What the texts of a request are has at most one first refusal, and none where they lead to a team of which nothing is
/// refused, nor of the texts of the first files.
pub fn one_first()
    ensures one { (files : Files) (request : TeamRequest) (r s : Refusal)
        → IsFirst files request r → IsFirst files request s → r ≡ s }
    ensures none { (files : Files) (request : TeamRequest) (texts : List Text) (team : List Factor) (r : Refusal)
        → AreTextsOf (Some files) request.first texts
        → IsTeam (Some files) request.texts team → IsAccepted request.work team texts
        → IsFirst files request r → ⊥ }
{
    tree_or_fault();
    first_fault_is_one();
    first_check_is_one();
    refused_lines_are_one();
    refused_certificates_have_one_line();
}
