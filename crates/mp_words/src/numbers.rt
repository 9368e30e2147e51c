//! Numbers of the command line.

ghost use Rattle.std.specs.Prelude.{◌≡◌, ◌≤◌, length};
ghost use Rattle.mp_words.specs.Numbers.{is_digit as is_digit_byte, number_between as number_between_of, number_from, number_of as number_of_word};

/// Whether a byte is a digit.
fn is_digit(byte: u8) -> bool
    ensures { result ≡ is_digit_byte byte }
{
    byte >= b'0' && byte <= b'9'
}

/// The number that at most eight digits spell; none where one is no digit.
fn spelled(digits: &[u8]) -> Option<u64>
    requires { length digits.now ≤ 8 }
    ensures { result ≡ number_from 0 digits.now }
{
    let mut number: u64 = 0;
    for digit in digits {
        if !is_digit(*digit) {
            return None;
        }
        number = number * 10 + u64::from(*digit - b'0');
    }
    Some(number)
}

/// The number that a word of one to eight digits spells.
fn number_of(word: &[u8]) -> Option<u64>
    ensures { result ≡ number_of_word word.now }
{
    if word.is_empty() || word.len() > 8 {
        return None;
    }
    spelled(word)
}

/// The number that a word of one to eight digits spells, where it lies between two others.
pub(crate) fn number_between(least: u64, most: u64, word: &[u8]) -> Option<u64>
    ensures { result ≡ number_between_of least most word.now }
{
    let number = number_of(word)?;
    if number < least || number > most {
        return None;
    }
    Some(number)
}
