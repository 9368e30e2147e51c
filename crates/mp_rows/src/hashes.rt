//! Hashes of rows, and their buckets.

ghost use Rattle.std.specs.Prelude.{◌≡◌, ◌<◌, ◌^◌, ◌++◌, fold};
ghost use Rattle.mp_rows.specs.Hashes.{bucket, hash_of, with_word};

/// An odd number whose bits have no pattern.
const MULTIPLIER: u64 = 0x9e37_79b9_7f4a_7c15;

/// One number for another one and a word more.
#[tactic(auto, unfolding(crate::specs::Hashes::with_word))]
fn with_word(number: u64, word: u64) -> u64
    ensures { result ≡ with_word number word }
{
    let product = (number ^ word).wrapping_mul(MULTIPLIER);
    product ^ (product >> 32)
}

/// One number for another one and words more.
#[inline(always)]
fn with_words(number: u64, words: &[u64]) -> u64
    ensures { result ≡ fold with_word number words.now }
{
    let mut mixed = number;
    for word in words {
        mixed = with_word(mixed, *word);
    }
    mixed
}

/// The hash of a row in two parts.
#[inline(always)]
#[tactic(auto, unfolding(crate::specs::Hashes::hash_of))]
pub(crate) fn hash_of(front: &[u64], back: &[u64]) -> u32
    ensures { result ≡ hash_of (front.now ++ back.now) }
{
    (with_words(with_words(0, front), back) >> 32) as u32
}

/// The bucket of a hash among so many.
pub(crate) fn bucket_of(hash: u32, buckets: usize) -> usize
    requires some { 0 < buckets }
    requires few { buckets < 2 ^ 32 }
    ensures is { result ≡ bucket buckets hash }
    ensures within { result < buckets }
{
    ((hash as u64 * buckets as u64) >> 32) as usize
}
