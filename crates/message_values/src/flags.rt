// All 256 flag bytes, in frames of some lengths: how often each number is answered.

ghost use Rattle.std.specs.Prelude.{◌<◌};

use crate::make;
use crate::make::{SMALL, Stores};
use std::io;

// Where a refusal that changed something is counted: above every number that a packet is refused with.
const BROKEN: usize = 29;

// The number that a frame of n bytes with these flags and zeros for fields is answered with, on fresh stores
// or on those that hold the id; none for a refusal that changed something.
fn answered(flags: u8, held: bool, n: usize) -> Option<u64> {
    let mut stores = if held {
        Stores::<SMALL>::held()
    } else {
        Stores::fresh()
    };
    let frame = make::frame(1, flags, 0, 0, 0);
    let start = make::start(&frame, n);
    let from = [0x11u8; 16];
    let to = [0x22u8; 16];
    let mut run = [0xeeu8; 86];
    let old = stores;
    let Stores { recv, send } = &mut stores;
    match message::packet(recv, send, start, &from, &to, b"\0", 1, &mut run) {
        Ok(_) => Some(0),
        Err(refusal) if stores == old && run == [0xee; 86] => Some(refusal.number()),
        Err(_) => None,
    }
}

// Where a number is counted.
fn place(number: Option<u64>) -> usize
    ensures { result < 30 }
{
    match number {
        Some(n) if n < BROKEN as u64 => n as usize,
        _ => BROKEN,
    }
}

// The numbers that the flag bytes are answered with in frames of n bytes, and how often each is.
fn counts(rt: &impl Print, held: bool, n: usize) -> io::Result<()> {
    let mut counts = [0u64; 30];
    for flags in 0..=255u8 {
        let i = place(answered(flags, held, n));
        counts[i] = counts[i].wrapping_add(1);
    }
    for (number, times) in counts.iter().enumerate() {
        if *times != 0 {
            print!(rt; " {times} x {number}")?;
        }
    }
    println!(rt; "")
}

// The answers to whole frames on fresh stores.
pub(crate) fn fresh(rt: &impl Print) -> io::Result<()> {
    print!(rt; "flags, fresh stores:")?;
    counts(rt, false, 1400)
}

// The same where the id is arriving, and leaving in state 1: whole frames, and those of the lengths at which
// answers change, and a byte shorter.
pub(crate) fn held(rt: &impl Print) -> io::Result<()> {
    print!(rt; "flags, arriving, and leaving in state 1:")?;
    counts(rt, true, 1400)?;
    for n in [11, 12, 20, 21, 35, 36, 51, 52] {
        print!(rt; "  frames of {n}:")?;
        counts(rt, true, n)?;
    }
    Ok(())
}
