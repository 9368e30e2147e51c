//! What a line of the cases says.

use mp_forms::File;

/// A line of the cases.
#[derive(Clone, Copy, Debug)]
pub(crate) enum Line<'a> {
    /// The text of the domain.
    Domain(&'a str),
    /// The text of the problem.
    Problem(&'a str),
    /// The first fault of shape of a file is asked for.
    Fault(File),
    /// What a file says is asked for.
    Says(File),
    /// What is wrong with the names of the two files is asked for.
    Check,
    /// Whether the first type is the second or lies under it is asked for.
    Under(&'a str, &'a str),
    /// The objects of these types are asked for.
    Members(&'a str),
    /// A remark.
    Remark,
    /// None of these.
    Unread,
}

/// The question about two types that is written behind the word `under`.
fn read_under(text: &str) -> Line<'_> {
    match text.split_once(' ') {
        Some((sub, sup)) => Line::Under(sub, sup),
        None => Line::Unread,
    }
}

/// What a line of fixed words says.
fn read_words(text: &str) -> Line<'_> {
    if text == "fault domain" {
        Line::Fault(File::Domain)
    } else if text == "fault problem" {
        Line::Fault(File::Problem)
    } else if text == "says domain" {
        Line::Says(File::Domain)
    } else if text == "says problem" {
        Line::Says(File::Problem)
    } else if text == "check" {
        Line::Check
    } else if text.is_empty() || text.starts_with('#') {
        Line::Remark
    } else {
        Line::Unread
    }
}

/// What a line says.
pub(crate) fn read_line(text: &str) -> Line<'_> {
    if let Some(rest) = text.strip_prefix("domain ") {
        return Line::Domain(rest);
    }
    if let Some(rest) = text.strip_prefix("problem ") {
        return Line::Problem(rest);
    }
    if let Some(rest) = text.strip_prefix("under ") {
        return read_under(rest);
    }
    if let Some(rest) = text.strip_prefix("members") {
        return Line::Members(rest);
    }
    read_words(text)
}
