//! Words and numbers of a line.

/// The first word of a line, and what stands behind it.
pub(crate) fn split_word(text: &str) -> (&str, &str) {
    match text.split_once(' ') {
        Some(parts) => parts,
        None => (text, ""),
    }
}

/// The part at a place of a text, from 0, where a `/` stands between each two. It is empty where a `-` stands alone, and
/// where there is none.
pub(crate) fn part(text: &str, place: usize) -> &str {
    match text.split('/').nth(place) {
        Some(part) if part.trim() != "-" => part.trim(),
        _ => "",
    }
}

/// The number at a place among the numbers of a text, from 0.
pub(crate) fn number_at(text: &str, place: usize) -> Option<u64> {
    let mut left = place;
    for word in text.split_whitespace() {
        if let Ok(number) = word.parse::<u64>() {
            if left == 0 {
                return Some(number);
            }
            left -= 1;
        }
    }
    None
}

/// The number at a place: 0 where there is none.
pub(crate) fn long(text: &str, place: usize) -> u64 {
    match number_at(text, place) {
        Some(number) => number,
        None => 0,
    }
}

/// The same with the greatest number that fits in place of a greater one.
pub(crate) fn short(text: &str, place: usize) -> u32 {
    long(text, place).min(u64::from(u32::MAX)) as u32
}
