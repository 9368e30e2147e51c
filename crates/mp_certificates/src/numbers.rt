//! Bytes and numbers, read from the front of a text.

ghost use Rattle.std.specs.Prelude.{◌≡◌, ◌+◌, ◌<◌, ◌≤◌, ◌^◌, IfSome};
ghost use Rattle.std.specs.Option.{option_map};
ghost use Rattle.mp_text.specs.Reading.{byte_at, text_behind};
ghost use Rattle.mp_certificates.specs.Reading.{digit_of, number_at, number_below as number_below_at, number_from as number_from_at, with_digit as with_digit_of};

/// The greatest bound, and the greatest cost.
pub(crate) const MOST: u64 = 1 << 60;

/// What follows a byte that is wanted first.
#[tactic(auto, unfolding(mp_text::specs::Reading::byte_at))]
pub(crate) fn behind(text: &[u8], wanted: u8) -> Option<&[u8]>
    ensures { option_map (λ x. x.now) result ≡ byte_at wanted text.now }
{
    match text {
        [byte, rest @ ..] if *byte == wanted => Some(rest),
        _ => None,
    }
}

/// What follows these bytes, where a text begins with them.
#[tactic(auto, unfolding(mp_text::specs::Reading::text_behind, mp_text::specs::Reading::byte_at))]
pub(crate) fn behind_all<'a>(text: &'a [u8], head: &[u8]) -> Option<&'a [u8]>
    ensures { option_map (λ x. x.now) result ≡ text_behind head.now text.now }
{
    let mut rest = text;
    for byte in head {
        rest = behind(rest, *byte)?;
    }
    Some(rest)
}

/// The value of a digit.
fn digit_value(byte: u8) -> Option<u64>
    ensures value { result ≡ digit_of byte }
    ensures small { IfSome result (λ digit. digit < 10) }
{
    if byte >= b'0' && byte <= b'9' {
        Some(u64::from(byte - b'0'))
    } else {
        None
    }
}

/// A number with one digit more behind it, where it has no zero in front and stays below the bound.
fn with_digit(bound: u64, number: u64, digit: u64) -> Option<u64>
    requires bound { bound ≤ 2 ^ 60 + 1 }
    requires number { number < bound }
    requires digit { digit < 10 }
    ensures value { result ≡ with_digit_of bound number digit }
    ensures below { IfSome result (λ grown. grown < bound) }
{
    let grown = number * 10 + digit;
    if number > 0 && grown < bound {
        Some(grown)
    } else {
        None
    }
}

/// The number below the bound whose digits go on behind those of this one, and what follows it.
#[tactic(auto, unfolding(crate::specs::Reading::number_from))]
fn number_from(bound: u64, first: u64, text: &[u8]) -> Option<(u64, &[u8])>
    requires bound { bound ≤ 2 ^ 60 + 1 }
    requires first { first < bound }
    ensures value { option_map (λ x. (x.0, x.1.now)) result ≡ number_from_at bound first text.now }
    ensures below { IfSome result (λ x. x.0 < bound) }
{
    let mut number = first;
    let mut rest = text;
    while let [byte, later @ ..] = rest {
        let Some(digit) = digit_value(*byte) else {
            return Some((number, rest));
        };
        let Some(grown) = with_digit(bound, number, digit) else {
            return None;
        };
        number = grown;
        rest = later;
    }
    Some((number, rest))
}

/// A number below the bound, and what follows it.
#[tactic(auto, unfolding(crate::specs::Reading::number_below))]
fn number_below(bound: u64, text: &[u8]) -> Option<(u64, &[u8])>
    requires { bound ≤ 2 ^ 60 + 1 }
    ensures value { option_map (λ x. (x.0, x.1.now)) result ≡ number_below_at bound text.now }
    ensures below { IfSome result (λ x. x.0 < bound) }
{
    match text {
        [byte, rest @ ..] => {
            let first = digit_value(*byte)?;
            if first >= bound {
                return None;
            }
            number_from(bound, first, rest)
        }
        [] => None,
    }
}

/// A number from the least one on and below the bound, without leading zeros, and what follows it.
#[tactic(auto, unfolding(crate::specs::Reading::number_at))]
pub(crate) fn number(least: u64, bound: u64, text: &[u8]) -> Option<(u64, &[u8])>
    requires { bound ≤ 2 ^ 60 + 1 }
    ensures value { option_map (λ x. (x.0, x.1.now)) result ≡ number_at least bound text.now }
    ensures from { IfSome result (λ x. least ≤ x.0) }
    ensures below { IfSome result (λ x. x.0 < bound) }
{
    let (number, rest) = number_below(bound, text)?;
    if number < least {
        return None;
    }
    Some((number, rest))
}
