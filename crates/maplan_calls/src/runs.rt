//! A count from 0 to 2 that goes up or down.

ghost use Rattle.std.specs.Prelude.{◌+◌, ◌-◌, nat_lt, Bool, Option, Some, None, if◌then◌else◌};

use crate::calls::{Call, Out};
use mp_list::OutOfMemory;
use mp_runs::{Takes, take_front};
use std::alloc::Global;

#[derive(Drop)]
struct Count {
    at: u8,
}

impl Takes<bool> for Count {
    ghost step = { λ count up. if up
        then (if nat_lt count.at 2 then Some (record { at = count.at + 1 }) else None)
        else (if nat_lt 0 count.at then Some (record { at = count.at - 1 }) else None) };

    fn take(&mut self, up: &bool) -> bool {
        if *up {
            if self.at < 2 {
                self.at += 1;
                return true;
            }
        } else if self.at > 0 {
            self.at -= 1;
            return true;
        }
        false
    }
}

/// Adds how many of the steps are taken that the words of a line name, `up` or `down`, and where the count then is.
pub(crate) fn answer_runs(alloc: Global, call: Call<'_>, out: &mut Out) -> Result<(), OutOfMemory> {
    let mut events = Vec::new(alloc);
    for word in call.rest.split_whitespace() {
        events.push(word == "up")?;
    }
    let mut count = Count { at: 0 };
    out.show(&take_front(&mut count, events.as_slice()));
    out.answer(&count.at)
}
