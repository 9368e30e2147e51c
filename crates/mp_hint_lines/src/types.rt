//! Types as text.

use mp_forms::Word;
use mp_hints::text_of;
use mp_list::OutOfMemory;

/// Writes the type of which something is, as files have it: a name, or `(either NAME ..)`.
pub fn push_types(out: &mut String, types: &[Word]) -> Result<(), OutOfMemory> {
    match types {
        [] => out.push_str("object")?,
        [word] => out.push_str(text_of(word.name.as_slice()))?,
        _ => {
            out.push_str("(either")?;
            for word in types {
                out.push(' ')?;
                out.push_str(text_of(word.name.as_slice()))?;
            }
            out.push(')')?;
        }
    }
    Ok(())
}
