//! The brackets of a text: which are open at its end, and where one may be missing.

use mp_sexp::Place;
use std::alloc::{AllocError, Global};

/// What is seen of the brackets of a text up to the one that closes its list.
#[derive(Drop)]
pub(crate) struct Brackets {
    /// Where the open lists begin, the outermost first.
    open: Vec<Place>,
    /// Where the bracket stands that closes the text's list.
    closed: Option<Place>,
    /// Where the first section begins that stands in another list than the text's.
    nested: Option<Place>,
    /// Where that list begins.
    nested_in: Option<Place>,
    /// Where the next byte stands.
    place: Place,
    is_comment: bool,
}

/// The place behind a byte.
fn place_behind(place: Place, byte: u8) -> Place {
    if byte == b'\n' {
        return Place {
            line: place.line.saturating_add(1),
            column: 1,
        };
    }
    Place {
        line: place.line,
        column: place.column.saturating_add(1),
    }
}

/// Whether a section of a domain begins with these bytes behind its bracket.
fn begins_domain_section(text: &[u8]) -> bool {
    text.starts_with(b":types")
        || text.starts_with(b":constants")
        || text.starts_with(b":predicates")
        || text.starts_with(b":functions")
        || text.starts_with(b":action")
}

/// Whether a section of a problem begins with these bytes behind its bracket.
fn begins_problem_section(text: &[u8]) -> bool {
    text.starts_with(b":domain")
        || text.starts_with(b":objects")
        || text.starts_with(b":init")
        || text.starts_with(b":goal")
        || text.starts_with(b":metric")
}

impl Brackets {
    /// A list begins, before these bytes.
    fn begin(&mut self, place: Place, behind: &[u8]) -> Result<(), AllocError> {
        if self.nested.is_none()
            && self.open.len() >= 2
            && (begins_domain_section(behind) || begins_problem_section(behind))
        {
            self.nested = Some(place);
            self.nested_in = self.open.last().copied();
        }
        self.open.push(place)?;
        Ok(())
    }

    /// A list ends.
    fn end(&mut self, place: Place) {
        if self.open.pop().is_some() && self.open.is_empty() {
            self.closed = Some(place);
        }
    }

    /// The next byte, and what stands behind it.
    fn see(&mut self, byte: u8, behind: &[u8]) -> Result<(), AllocError> {
        let place = self.place;
        self.place = place_behind(place, byte);
        if self.is_comment {
            self.is_comment = byte != b'\n';
            return Ok(());
        }
        match byte {
            b';' => self.is_comment = true,
            b'(' => self.begin(place, behind)?,
            b')' => self.end(place),
            _ => {}
        }
        Ok(())
    }

    /// Where the bracket stands that closes the text's list.
    pub(crate) fn closed(&self) -> Option<Place> {
        self.closed
    }

    /// Where the innermost list begins that is open.
    pub(crate) fn innermost(&self) -> Option<Place> {
        self.open.last().copied()
    }

    /// The first section that stands in another list than the text's, and where that list begins.
    pub(crate) fn nested(&self) -> Option<(Place, Place)> {
        match (self.nested, self.nested_in) {
            (Some(section), Some(list)) => Some((section, list)),
            _ => None,
        }
    }

    /// Whether the text ends at this place, and its list is not closed before.
    pub(crate) fn ends_at(&self, place: Place) -> bool {
        self.closed.is_none() && self.place == place
    }
}

/// The brackets of a text, up to the one that closes its list. Refuses only for want of memory.
pub(crate) fn brackets_of(alloc: Global, text: &[u8]) -> Result<Brackets, AllocError> {
    let mut seen = Brackets {
        open: Vec::new(alloc),
        closed: None,
        nested: None,
        nested_in: None,
        place: Place { line: 1, column: 1 },
        is_comment: false,
    };
    for (at, byte) in text.iter().enumerate() {
        if seen.closed.is_some() {
            break;
        }
        seen.see(*byte, &text[at + 1..])?;
    }
    Ok(seen)
}
