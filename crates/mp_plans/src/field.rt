//! Fields of a line, read from left to right.

ghost use Rattle.std.specs.Prelude.{◌≡◌, ◌≤◌, Some, length, take, drop};
ghost use Rattle.std.specs.List.{prefix_len};
ghost use Rattle.std.specs.Option.{option_map};
ghost use Rattle.mp_forms.specs.Words.{is_digit as is_digit_byte};
ghost use Rattle.mp_plans.specs.Fields.{before as before_of, behind as behind_of, if_below, is_numeral as is_numeral_text, number_at, number_from, numeral_at};

/// The numbers of a plan are below this one.
const BOUND: u64 = 1 << 60;

/// What follows this beginning of a text.
pub(crate) fn behind<'a>(head: &[u8], text: &'a [u8]) -> Option<&'a [u8]>
    ensures { option_map (λ x. x.now) result ≡ behind_of head.now text.now }
{
    if text.starts_with(head) {
        return Some(&text[head.len()..]);
    }
    None
}

/// What stands before this ending of a text.
pub(crate) fn before<'a>(ending: &[u8], text: &'a [u8]) -> Option<&'a [u8]>
    ensures { option_map (λ x. x.now) result ≡ before_of ending.now text.now }
{
    if text.ends_with(ending) {
        return Some(&text[..text.len() - ending.len()]);
    }
    None
}

/// Whether a byte is a digit.
pub(crate) fn is_digit(byte: u8) -> bool
    ensures { result ≡ is_digit_byte byte }
{
    byte >= b'0' && byte <= b'9'
}

/// How many digits stand at the front of a text.
fn count_digits(text: &[u8]) -> usize
    ensures value { result ≡ prefix_len is_digit_byte text.now }
    ensures within { result ≤ length text.now }
{
    for (before, byte) in text.iter().enumerate() {
        if !is_digit(*byte) {
            return before;
        }
    }
    text.len()
}

/// Whether digits are a number without leading zeros.
fn is_numeral(digits: &[u8]) -> bool
    ensures { result ≡ is_numeral_text digits.now }
{
    match digits {
        [] => false,
        [first, others @ ..] => *first != b'0' || others.is_empty(),
    }
}

/// The digits of a number without leading zeros, and what follows it.
#[tactic(auto, unfolding(crate::specs::Fields::numeral_at))]
pub(crate) fn numeral(text: &[u8]) -> Option<(&[u8], &[u8])>
    ensures { option_map (λ x. (x.0.now, x.1.now)) result ≡ numeral_at text.now }
{
    let (digits, rest) = text.split_at(count_digits(text));
    if !is_numeral(digits) {
        return None;
    }
    Some((digits, rest))
}

/// The number that digits spell, where it is below the bound.
fn value(digits: &[u8]) -> Option<u64>
    ensures { result ≡ if_below BOUND (number_from 0 digits.now) }
{
    let mut number = 0;
    for digit in digits {
        number = number * 10 + u64::from(digit.saturating_sub(b'0'));
        if number >= BOUND {
            return None;
        }
    }
    Some(number)
}

/// A number below the bound, and what follows it.
#[tactic(auto, unfolding(crate::specs::Fields::number_at))]
pub(crate) fn number(text: &[u8]) -> Option<(u64, &[u8])>
    ensures { option_map (λ x. (x.0, x.1.now)) result ≡ number_at text.now }
{
    let (digits, rest) = numeral(text)?;
    let number = value(digits)?;
    Some((number, rest))
}
