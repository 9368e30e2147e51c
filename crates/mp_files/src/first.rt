//! The files of a team have at most one first refusal, and make one team.

ghost use Rattle.std.specs.Prelude.{◌≡◌, List, Ok, Err, map};
ghost use Rattle.mp_outside.specs.Source.{Files};
ghost use Rattle.mp_forms.specs.declared.factor.Factor.{Factor};
ghost use Rattle.mp_files.specs.Team.{FoundTwo, HoldsTeam, IsFirst, ReadsFound, ReadsMade, Two, found_in_memory, found_under};
ghost use Rattle.mp_files.specs.declared.refusal.Refusal.{Refusal};

use mp_factor::first_fault_is_one;
use mp_sexp::tree_or_fault;
use mp_typing::first_fault_is_one as first_check_is_one;

/// What files hold has at most one first refusal, and none where they hold a team; and so it is with texts in memory.
pub fn one_first()
    ensures one { (files : Files) (names : List Two) (r s : Refusal)
        → IsFirst files names r → IsFirst files names s → r ≡ s }
    ensures none { (files : Files) (names : List Two) (team : List Factor) (r : Refusal)
        → HoldsTeam files names team → IsFirst files names r → ⊥ }
    ensures one_made { (texts : List Two) (r s : Refusal)
        → ReadsMade texts (Err r) → ReadsMade texts (Err s) → r ≡ s }
    ensures none_made { (texts : List Two) (team : List Factor) (r : Refusal)
        → ReadsMade texts (Ok team) → ReadsMade texts (Err r) → ⊥ }
{
    tree_or_fault();
    first_fault_is_one();
    first_check_is_one();
}

/// What is found for the agents of a team, each one's domain and its problem, makes one team, under whatever names it is found:
/// files hold a team exactly where what is found under their names makes it, and texts in memory make that of what they are.
pub fn one_team()
    ensures one { (found : List FoundTwo) (team other : List Factor)
        → ReadsFound found (Ok team) → ReadsFound found (Ok other) → other ≡ team }
    ensures held { (files : Files) (names : List Two) (team : List Factor)
        → HoldsTeam files names team → ReadsFound (map (found_under files) names) (Ok team) }
    ensures holds { (files : Files) (names : List Two) (team : List Factor)
        → ReadsFound (map (found_under files) names) (Ok team) → HoldsTeam files names team }
    ensures made { (texts : List Two) (team : List Factor)
        → ReadsMade texts (Ok team) → ReadsFound (map found_in_memory texts) (Ok team) }
{
    tree_or_fault();
    first_fault_is_one();
    first_check_is_one();
}
