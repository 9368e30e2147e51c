//! Devices of which each call fails in turn.

ghost use Rattle.std.specs.Prelude.{◌<◌};

use crate::alike::Alike;
use crate::answers::{described, show_answer};
use crate::calls::{Answer, Asked, Device, Devices, answer_of};
use mp_list::OutOfMemory;
use std::alloc::Global;

/// The most calls of a device that are tried.
const MOST: usize = 100_000;

/// A device of the program.
#[derive(Clone, Copy, Debug)]
enum Part {
    Source,
    Out,
    Err,
}

/// The device, where one of its calls fails.
fn failing(device: Device, call: u64) -> Device {
    Device {
        failing: call,
        ..device
    }
}

/// The devices, where a call of one of them fails.
fn failing_at(devices: Devices, part: Part, call: u64) -> Devices {
    match part {
        Part::Source => Devices {
            source: failing(devices.source, call),
            ..devices
        },
        Part::Out => Devices {
            out: failing(devices.out, call),
            ..devices
        },
        Part::Err => Devices {
            err: failing(devices.err, call),
            ..devices
        },
    }
}

/// How many bytes the output and the error stream take in so many calls of a device of which the next fails, where each call
/// takes as many as it may.
fn before(devices: Devices, part: Part, calls: usize) -> (usize, usize) {
    match part {
        Part::Source => (0, 0),
        Part::Out => (calls.saturating_mul(devices.out.piece), 0),
        Part::Err => (0, calls.saturating_mul(devices.err.piece)),
    }
}

/// The word for a device.
fn heading(part: Part) -> &'static str {
    match part {
        Part::Source => "source",
        Part::Out => "output",
        Part::Err => "error",
    }
}

/// Describes what is answered where the call behind so many others fails: whether it was made.
fn try_call(
    alloc: Global,
    asked: Asked<'_>,
    devices: Devices,
    part: Part,
    calls: usize,
    whole: &Answer,
    alike: &mut Alike,
    out: &mut Vec<u8>,
) -> Result<bool, OutOfMemory>
    requires { calls < 100000 }
{
    let number = calls + 1;
    let answer = answer_of(alloc, asked, failing_at(devices, part, number as u64))?;
    let (before_out, before_err) = before(devices, part, calls);
    let text = described(alloc, &answer, whole, before_out, before_err)?;
    alike.add(out, number, text)?;
    Ok(answer.failed)
}

/// Tries a device with each call failing in turn, until there is none that fails.
fn try_part(
    alloc: Global,
    asked: Asked<'_>,
    devices: Devices,
    part: Part,
    whole: &Answer,
    out: &mut Vec<u8>,
) -> Result<(), OutOfMemory> {
    let mut alike = Alike::new(alloc, heading(part));
    for calls in 0..MOST {
        if !try_call(alloc, asked, devices, part, calls, whole, &mut alike, out)? {
            return alike.show(out);
        }
    }
    alike.show(out)
}

/// Tries the devices with no call failing, and then with each.
pub(crate) fn try_devices(
    alloc: Global,
    asked: Asked<'_>,
    devices: Devices,
    out: &mut Vec<u8>,
) -> Result<(), OutOfMemory> {
    let whole = answer_of(alloc, asked, devices)?;
    show_answer(out, &whole)?;
    try_part(alloc, asked, devices, Part::Source, &whole, out)?;
    try_part(alloc, asked, devices, Part::Out, &whole, out)?;
    try_part(alloc, asked, devices, Part::Err, &whole, out)
}
