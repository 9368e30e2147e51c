//! Walks back over the entries of a store.

ghost use Rattle.std.specs.Prelude.{length};
ghost use Rattle.mp_store.specs.Laws.{IsEarlier};

use crate::calls::{Answers, Call, Out, run_lines};
use crate::lines::{long, short};
use crate::states::agent_at;
use mp_list::{Copied, OutOfMemory};
use mp_sets::{Bits, Tags};
use mp_store::{Key, Origin, Store};
use mp_trail::Trail;
use std::alloc::Global;

/// A store, and the walks over it.
#[derive(Drop)]
struct Walks {
    store: Store,
    trail: Trail,
}

/// The origin of a line, with so many entries before it: the initial state in place of one that cannot be.
fn origin(count: u64, call: Call<'_>) -> Origin
    ensures { IsEarlier count result }
{
    let (action, parent) = (short(call.rest, 0), long(call.rest, 1));
    let agent = agent_at(call.rest, 0);
    match call.word {
        "own" if parent < count => Origin::Own { action, parent },
        "from" => Origin::From {
            agent,
            sent: parent,
        },
        _ => Origin::Root,
    }
}

/// Keeps an entry with an origin.
fn keep(alloc: Global, store: &mut Store, origin: Origin) -> Result<(), OutOfMemory>
    requires { IsEarlier (length store.old.entries) origin }
{
    let key = Key {
        publics: Bits::new(alloc, 0)?,
        mine: store.count(),
        tags: Tags::new(alloc),
    };
    store.offer(key, 0, 0, origin, false)?;
    Ok(())
}

/// Walks where the conditions hold, and adds where the walk ends.
fn walk(walks: &mut Walks, entry: u32, back: u32, out: &mut Out) -> Result<(), OutOfMemory> {
    let (entry, back) = (u64::from(entry), u64::from(back));
    if entry >= walks.store.count() || !walks.trail.fits(back) {
        return out.answer_not_read();
    }
    out.answer(&walks.trail.walk(&walks.store, entry, back)?)
}

/// Adds a copy of the share of a length, if the noted actions fit.
fn share(trail: &Trail, length: u64, out: &mut Out) -> Result<(), OutOfMemory> {
    if !trail.fits(length) {
        return out.answer_not_read();
    }
    let share = trail.share(length)?;
    out.answer(&share.copy()?)
}

impl Answers for Walks {
    fn answer(&mut self, alloc: Global, call: Call<'_>, out: &mut Out) -> Result<(), OutOfMemory> {
        let rest = call.rest;
        match call.word {
            "fits" => out.answer(&self.trail.fits(long(rest, 0))),
            "walk" => walk(self, short(rest, 0), short(rest, 1), out),
            "share" => share(&self.trail, long(rest, 0), out),
            _ => {
                let origin = origin(self.store.count(), call);
                keep(alloc, &mut self.store, origin)
            }
        }
    }
}

/// Runs the calls of a trail over a store that they fill.
pub(crate) fn run_trail(alloc: Global, lines: &str, out: &mut Out) -> Result<(), OutOfMemory> {
    let mut walks = Walks {
        store: Store::new(alloc),
        trail: Trail::new(alloc),
    };
    run_lines(alloc, &mut walks, lines, out)
}
