//! Which words need no second thread.

ghost use Rattle.std.specs.Prelude.{◌≡◌, map, string_bytes};
ghost use Rattle.mp_words.specs.Requests.{is_alone, stands_before_dashes};

/// Whether the program answers these words on the calling thread alone: there is no command, or it is
/// neither `solve` nor `make`, or `--one` stands among the words before the first `--`. It takes no memory.
pub fn alone(words: &[String]) -> bool
    ensures { result ≡ is_alone (map string_bytes words.now) }
{
    let Some(command) = words.first() else {
        return true;
    };
    let starts_workers = command.as_str() == "solve" || command.as_str() == "make";
    !starts_workers || is_one_given(words)
}

/// Whether `--one` stands before the first `--`.
fn is_one_given(words: &[String]) -> bool
    ensures { result ≡ stands_before_dashes (map string_bytes words.now) }
{
    for word in words {
        if word.as_str() == "--" {
            return false;
        }
        if word.as_str() == "--one" {
            return true;
        }
    }
    false
}
