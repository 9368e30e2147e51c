//! The supports of operators, by the numbers of their preconditions.

ghost use Rattle.std.specs.Prelude.{◌≡◌, ◌<◌, ℕ, All, IfNone, IfSome, false, length, true};
ghost use Rattle.std.specs.Option.{option_to_list};
ghost use Rattle.mp_list.specs.First.{earlier as first_of};
ghost use Rattle.mp_estimates.specs.Lowering.{value_at};
ghost use Rattle.mp_lmcut.specs.Cut.{all_valued, support, supports_before};

/// Whether all of some facts have values.
pub(crate) fn are_valued(numbers: &[u64], facts: &[u32]) -> bool
    requires { All (λ x. x < length numbers.now) facts.now }
    ensures { result ≡ all_valued (value_at numbers.now) facts.now }
{
    for x in facts {
        if numbers[*x as usize] == u64::MAX {
            return false;
        }
    }
    true
}

/// Whether one precondition comes before another one as a support: its value is greater, or as great and its number
/// lower.
fn comes_before(numbers: &[u64], x: u32, y: u32) -> bool
    requires one { x < length numbers.now }
    requires other { y < length numbers.now }
    ensures { result ≡ supports_before (value_at numbers.now) x y }
{
    let own = numbers[x as usize];
    let its = numbers[y as usize];
    own > its || (own >= its && x < y)
}

/// The one of a known precondition, if there is one, and another that comes first.
fn earlier(numbers: &[u64], known: Option<u32>, x: u32) -> u32
    requires known { IfSome known (λ y. y < length numbers.now) }
    requires other { x < length numbers.now }
    ensures value { result ≡ first_of (supports_before (value_at numbers.now)) known x }
    ensures below { result < length numbers.now }
{
    match known {
        None => x,
        Some(y) => { if comes_before(numbers, x, y) { x } else { y } }
    }
}

/// The support of preconditions: none where there are none.
#[tactic(auto, unfolding(crate::specs::Cut::support))]
pub(crate) fn support_of(numbers: &[u64], pre: &[u32]) -> Option<u32>
    requires { All (λ x. x < length numbers.now) pre.now }
    ensures value { option_to_list result ≡ support (value_at numbers.now) pre.now }
    ensures below { IfSome result (λ x. x < length numbers.now) }
{
    let mut best = None;
    for x in pre {
        best = Some(earlier(numbers, best, *x));
    }
    best
}

/// Whether a support, if there is one, has a value.
#[tactic(auto, using(crate::proofs::SupportLemmas::known_one))]
fn is_known(numbers: &[u64], found: Option<u32>) -> bool
    requires { IfSome found (λ x. x < length numbers.now) }
    ensures { result ≡ all_valued (value_at numbers.now) (option_to_list found) }
{
    match found {
        Some(x) => numbers[x as usize] < u64::MAX,
        None => true,
    }
}

/// The support of preconditions that all have values, as its own value is the greatest of theirs.
pub(crate) fn valued_support_of(numbers: &[u64], pre: &[u32]) -> Option<Option<u32>>
    requires { All (λ x. x < length numbers.now) pre.now }
    ensures none { IfNone result (all_valued (value_at numbers.now) pre.now ≡ false) }
    ensures valued { IfSome result (λ _. all_valued (value_at numbers.now) pre.now ≡ true) }
    ensures value { IfSome result (λ found. option_to_list found ≡ support (value_at numbers.now) pre.now) }
    ensures below { IfSome result (λ found. IfSome found (λ x. x < length numbers.now)) }
{
    let found = support_of(numbers, pre);
    if !is_known(numbers, found) {
        return None;
    }
    Some(found)
}
