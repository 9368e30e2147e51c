//! The kinds of words: names, variables, and words with a meaning of their own.

ghost use Rattle.std.specs.Prelude.{◌≡◌};
ghost use Rattle.std.specs.List.{list_all};
ghost use Rattle.std.specs.Str.{bytes_eq};
ghost use Rattle.mp_forms.specs.Words.{is_letter, is_digit, is_name_byte, begins_with_letter, is_among, is_fixed, connectives, quantifiers, assignments, other_words};
ghost use Rattle.mp_forms.specs.Kinds.{is_name, is_variable};

/// Whether two words are the same.
pub fn is_same(a: &[u8], b: &[u8]) -> bool
    ensures { result ≡ bytes_eq a.now b.now }
{
    a == b
}

/// Whether the byte is a letter, folded.
fn is_letter_byte(byte: u8) -> bool
    ensures { result ≡ is_letter byte }
{
    97 <= byte && byte <= 122
}

/// Whether the byte is a digit.
pub fn is_digit_byte(byte: u8) -> bool
    ensures { result ≡ is_digit byte }
{
    48 <= byte && byte <= 57
}

/// Whether the byte may stand in a name.
fn may_stand_in_name(byte: u8) -> bool
    ensures { result ≡ is_name_byte byte }
{
    is_letter_byte(byte) || is_digit_byte(byte) || byte == b'-' || byte == b'_'
}

/// Whether a word begins with a letter.
fn has_letter_first(word: &[u8]) -> bool
    ensures { result ≡ begins_with_letter word.now }
{
    match word {
        [] => false,
        [first, ..] => is_letter_byte(*first),
    }
}

/// Whether a word has only bytes that may stand in a name.
fn has_name_bytes(word: &[u8]) -> bool
    ensures { result ≡ list_all is_name_byte word.now }
{
    word.iter().all(|byte| may_stand_in_name(*byte))
}

/// Whether a word is a letter and then letters, digits, `-` and `_`.
#[tactic(auto, unfolding(mp_forms::specs::Kinds::is_name))]
pub fn is_spelled_as_name(word: &[u8]) -> bool
    ensures { result ≡ is_name word.now }
{
    has_letter_first(word) && has_name_bytes(word)
}

/// Whether a word is `?` and then a name.
#[tactic(auto, unfolding(mp_forms::specs::Kinds::is_variable))]
pub fn is_spelled_as_variable(word: &[u8]) -> bool
    ensures { result ≡ is_variable word.now }
{
    match word {
        [] => false,
        [first, rest @ ..] => *first == b'?' && is_spelled_as_name(rest),
    }
}

/// Whether a word joins conditions.
#[tactic(auto, unfolding(mp_forms::specs::Words::connectives))]
fn is_connective(word: &[u8]) -> bool
    ensures { result ≡ is_among connectives word.now }
{
    is_same(b"and", word)
        || is_same(b"or", word)
        || is_same(b"not", word)
        || is_same(b"imply", word)
        || is_same(b"when", word)
        || is_same(b"=", word)
}

/// Whether a word ranges over objects or types.
#[tactic(auto, unfolding(mp_forms::specs::Words::quantifiers))]
fn is_quantifier(word: &[u8]) -> bool
    ensures { result ≡ is_among quantifiers word.now }
{
    is_same(b"forall", word) || is_same(b"exists", word) || is_same(b"either", word)
}

/// Whether a word changes a number.
#[tactic(auto, unfolding(mp_forms::specs::Words::assignments))]
fn is_assignment(word: &[u8]) -> bool
    ensures { result ≡ is_among assignments word.now }
{
    is_same(b"increase", word)
        || is_same(b"decrease", word)
        || is_same(b"assign", word)
        || is_same(b"scale-up", word)
        || is_same(b"scale-down", word)
}

/// Whether a word has a meaning of its own elsewhere.
#[tactic(auto, unfolding(mp_forms::specs::Words::other_words))]
fn is_other_word(word: &[u8]) -> bool
    ensures { result ≡ is_among other_words word.now }
{
    is_same(b"define", word)
        || is_same(b"minimize", word)
        || is_same(b"number", word)
        || is_same(b"object", word)
        || is_same(b"total-cost", word)
}

/// Whether a word has a meaning of its own.
#[tactic(auto, unfolding(mp_forms::specs::Words::is_fixed))]
pub fn is_kept_word(word: &[u8]) -> bool
    ensures { result ≡ is_fixed word.now }
{
    is_connective(word) || is_quantifier(word) || is_assignment(word) || is_other_word(word)
}
