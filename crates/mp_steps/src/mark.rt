//! The level and the time of an action.

ghost use Rattle.std.specs.Prelude.{◌≡◌};
ghost use Rattle.mp_steps.specs.Marks.{better as better_of};

/// The level and the time of an action; both are 0 where there is none.
#[derive(Clone, Copy)]
pub struct Mark {
    pub level: u64,
    pub time: u64,
}

/// No action.
pub const NO_MARK: Mark = Mark { level: 0, time: 0 };

/// The one of the greater level, and of one level the earlier one.
pub fn better(first: Mark, second: Mark) -> Mark
    ensures { result ≡ better_of first second }
{
    if first.level < second.level || (first.level == second.level && second.time < first.time) {
        second
    } else {
        first
    }
}
