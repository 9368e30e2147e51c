//! Indices and tokens of a few sets, in the order in which an agent meets and uses them.

ghost use Rattle.std.specs.Prelude.{◌≡◌};

use crate::calls::{Answers, Call, Out, run_lines};
use crate::lines::long;
use crate::states::set_of;
use mp_list::OutOfMemory;
use mp_tokens::Tokens;
use std::alloc::Global;

/// The tokens of sets of numbers below 4.
#[derive(Drop)]
struct Known {
    tokens: Tokens,
    ghost size: { tokens.size ≡ 4 },
}

/// Adds the index of a set that is met, as it is found then, and the members of the set of that index.
fn meet(alloc: Global, tokens: &mut Tokens, text: &str, out: &mut Out) -> Result<(), OutOfMemory>
    requires { tokens.old.size ≡ 4 }
    ensures { tokens.new.size ≡ 4 }
{
    let index = tokens.intern(set_of(alloc, 4, text, 0)?)?;
    out.show(&(index, tokens.index_of(&set_of(alloc, 4, text, 0)?)));
    out.answer(&tokens.set(index).list()?.as_slice())
}

/// Adds the token of a set that is used, and the index that this has.
fn give(alloc: Global, tokens: &mut Tokens, text: &str, out: &mut Out) -> Result<(), OutOfMemory>
    requires { tokens.old.size ≡ 4 }
    ensures { tokens.new.size ≡ 4 }
{
    let index = tokens.intern(set_of(alloc, 4, text, 0)?)?;
    let token = tokens.token_of(index)?;
    out.answer(&(token, tokens.set_of(token)))
}

impl Answers for Known {
    fn answer(&mut self, alloc: Global, call: Call<'_>, out: &mut Out) -> Result<(), OutOfMemory> {
        match call.word {
            "meet" => meet(alloc, &mut self.tokens, call.rest, out),
            "use" => give(alloc, &mut self.tokens, call.rest, out),
            _ => out.answer(&self.tokens.set_of(long(call.rest, 0))),
        }
    }
}

/// Runs the calls of the tokens of a set.
pub(crate) fn run_tokens(
    alloc: Global,
    start: &str,
    lines: &str,
    out: &mut Out,
) -> Result<(), OutOfMemory> {
    let tokens = Tokens::new(alloc, set_of(alloc, 4, start, 0)?)?;
    run_lines(alloc, &mut Known { tokens }, lines, out)
}
