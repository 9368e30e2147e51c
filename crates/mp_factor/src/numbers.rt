//! Numbers and costs.

ghost use Rattle.std.specs.Prelude.{◌≡◌, ◌==◌, ◌<◌, length, position, IfSome};
ghost use Rattle.std.specs.List.{list_all};
ghost use Rattle.mp_forms.specs.Words.{is_digit};
ghost use Rattle.mp_forms.specs.Numbers.{whole_part, decimals, is_digits, is_number, least_of_whole, cost_of};

use crate::words::is_digit_byte;

/// The greatest cost.
pub const GREATEST_COST: u64 = 1_000_000;

/// Whether these are digits.
fn are_digits(bytes: &[u8]) -> bool
    ensures { result ≡ list_all is_digit bytes.now }
{
    bytes.iter().all(|byte| is_digit_byte(*byte))
}

/// Where the first point stands.
fn point(word: &[u8]) -> Option<usize>
    ensures point { result ≡ position (λ b. b == 46) word.now }
    ensures within { IfSome result (λ at. at < length word.now) }
{
    word.iter().position(|byte| *byte == b'.')
}

/// Whether these are one or more digits.
fn has_digits_only(bytes: &[u8]) -> bool
    ensures { result ≡ is_digits bytes.now }
{
    !bytes.is_empty() && are_digits(bytes)
}

/// What stands before the first point.
#[tactic(auto, unfolding(mp_forms::specs::Numbers::whole_part))]
fn before_point(word: &[u8]) -> &[u8]
    ensures { result.now ≡ whole_part word.now }
{
    match point(word) {
        Some(at) => &word[..at],
        None => word,
    }
}

/// What stands behind the first point.
#[tactic(auto, unfolding(mp_forms::specs::Numbers::decimals))]
fn after_point(word: &[u8]) -> &[u8]
    ensures { result.now ≡ decimals word.now }
{
    match point(word) {
        Some(at) => &word[at + 1..],
        None => b"0",
    }
}

/// Whether a word is a number: digits, or digits, a point and digits.
#[tactic(auto, unfolding(mp_forms::specs::Numbers::is_number))]
pub fn is_spelled_as_number(word: &[u8]) -> bool
    ensures { result ≡ is_number word.now }
{
    has_digits_only(before_point(word)) && has_digits_only(after_point(word))
}

/// The value of these digits, or 1,000,001 where it is above the greatest cost.
#[tactic(auto, unfolding(mp_forms::specs::Numbers::least_of_whole))]
fn least_value(digits: &[u8]) -> u64
    ensures { result ≡ least_of_whole digits.now }
{
    let mut value: u64 = 0;
    for digit in digits {
        value = (value * 10 + digit.saturating_sub(b'0') as u64).min(GREATEST_COST + 1);
    }
    value
}

/// Whether these are zeros.
fn are_zeros(bytes: &[u8]) -> bool
    ensures { result ≡ list_all (λ b. b == 48) bytes.now }
{
    bytes.iter().all(|byte| *byte == b'0')
}

/// The cost that a number is: none where it has decimals other than zeros, or is above 1,000,000.
#[tactic(auto, unfolding(mp_forms::specs::Numbers::cost_of))]
pub fn cost(word: &[u8]) -> Option<u64>
    ensures { result ≡ cost_of word.now }
{
    if !is_spelled_as_number(word) || !are_zeros(after_point(word)) {
        return None;
    }
    let value = least_value(before_point(word));
    if value <= GREATEST_COST {
        Some(value)
    } else {
        None
    }
}
