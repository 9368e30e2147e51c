//! Bytes of a text by their kinds, and letters folded.

ghost use Rattle.std.specs.Prelude.{◌≡◌, ◌↔◌, IsTrue};
ghost use Rattle.mp_sexp.specs.Bytes.{folded_byte, is_space};
ghost use Rattle.mp_sexp.specs.Kinds.{kind_of};
ghost use Rattle.mp_sexp.specs.Name.{IsCapital, same_bytes};
ghost use Rattle.mp_sexp.specs.Reading.{is_word};

/// What a byte is in a text, outside a comment.
#[derive(Clone, Copy)]
pub enum Kind {
    /// Tab, line feed, carriage return or blank.
    Space,
    /// The semicolon, with which a comment begins.
    Comment,
    Open,
    Close,
    /// A byte of a word.
    Word,
    /// Anything else.
    Foreign,
}

/// Whether a byte stands between words.
#[inline]
pub fn is_between_words(byte: u8) -> bool
    ensures { result ≡ is_space byte }
{
    byte == 9 || byte == b'\n' || byte == b'\r' || byte == b' '
}

/// The kind of a byte.
#[inline]
#[tactic(auto, unfolding(crate::specs::Kinds::kind_of))]
pub fn kind_of_byte(byte: u8) -> Kind
    ensures { result ≡ kind_of byte }
{
    if byte == b'(' {
        Kind::Open
    } else if byte == b')' {
        Kind::Close
    } else if byte == b';' {
        Kind::Comment
    } else if is_between_words(byte) {
        Kind::Space
    } else if 33 <= byte && byte <= 126 {
        Kind::Word
    } else {
        Kind::Foreign
    }
}

/// Whether a byte is one of a word. It is asked of every byte of every word, so that the letters, which
/// are most of them, are told apart first.
#[inline]
#[tactic(auto, unfolding(crate::specs::Kinds::kind_of))]
pub fn is_word_byte(byte: u8) -> bool
    ensures { result ≡ is_word byte }
{
    if byte > b';' {
        byte <= 126
    } else if byte > b')' {
        byte != b';'
    } else {
        33 <= byte && byte < b'('
    }
}

/// A to Z become a to z.
#[inline]
pub fn fold(byte: u8) -> u8
    ensures value { result ≡ folded_byte byte }
    ensures small { ¬ IsCapital result }
{
    if 65 <= byte && byte <= 90 {
        byte + 32
    } else {
        byte
    }
}

/// Whether two lists have the same bytes. The lists are those of names, which are short: their bytes are compared one
/// after another sooner than by a comparison that is made for many.
pub fn is_same(a: &[u8], b: &[u8]) -> bool
    ensures { result ≡ same_bytes a.now b.now }
{
    let mut left = a;
    let mut right = b;
    while let [first, behind @ ..] = left {
        match right {
            [] => return false,
            [other, rest @ ..] => {
                if *first != *other {
                    return false;
                }
                right = rest;
            }
        }
        left = behind;
    }
    right.is_empty()
}
