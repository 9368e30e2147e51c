//! The names of files among the words of a call.

use crate::reading::AGENTS;
use std::alloc::{AllocError, Global};

/// The names of the files of 1 to 16 agents, two of each: none where there are other words.
pub(crate) fn names_in(alloc: Global, words: &[String]) -> Result<Option<Vec<&str>>, AllocError> {
    let agents = words.len() / 2;
    if words.len() % 2 != 0 || agents == 0 || agents > AGENTS {
        return Ok(None);
    }
    let mut names = Vec::new(alloc);
    for word in words {
        names.push(word.as_str())?;
    }
    Ok(Some(names))
}
