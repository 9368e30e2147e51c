//! The action that a step names.

ghost use Rattle.std.specs.Prelude.{◌≡◌, None, MatchOption};
ghost use Rattle.std.specs.List.{find};
ghost use Rattle.std.specs.Str.{bytes_eq};
ghost use Rattle.mp_checker.specs.AgentView.{factor_of};
ghost use Rattle.mp_checker.specs.Found.{IsActionOf};

use crate::factor::AgentFactor;
use crate::numbered::NumberedAction;
use mp_forms::Schema;
use mp_sexp::Name;

/// An action of a factor, as it is written and in numbers.
#[derive(Clone, Copy)]
pub struct FoundAction<'f> {
    pub schema: &'f Schema,
    pub action: &'f NumberedAction,
}

/// The action of a factor that has a name: none exactly where it has none.
pub fn found_action<'f>(factor: &'f AgentFactor<'_, '_>, name: &Name) -> Option<FoundAction<'f>>
    ensures { MatchOption result
        (find (λ s. bytes_eq s.word.name name.now) (factor_of factor.now).domain.schemas ≡ None)
        (λ found. IsActionOf factor.now name.now found.schema.now found.action.now) }
{
    let domain = &factor.checked.factor().domain;
    domain.comes_from_a_file();
    let Some(place) = factor.action_names.find(name.as_slice()) else {
        return None;
    };
    let Some(schema) = domain.schemas.get(place) else {
        return None;
    };
    let Some(action) = factor.actions.get(place) else {
        return None;
    };
    Some(FoundAction { schema, action })
}
