// Pushes and wakes: the refusals that are left.

use crate::make::{SMALL, Stores};
use std::io;

// A message of the longest length, one byte more, no cell left, an id in use.
pub(crate) fn lengths(rt: &impl Print) -> io::Result<()> {
    let mut run = [0xeeu8; 310];
    let mut stores = Stores::<SMALL>::fresh();
    let longer = [7u8; 32501];
    stores.push(rt, "push of 32501", 1, b"t", &longer, &mut run)?;
    let longest = [7u8; 32500];
    stores.push(rt, "push of 32500", 1, b"t", &longest, &mut run)?;
    stores.push(rt, "push of 1, no cell free", 2, b"t", b"x", &mut run)?;
    stores.push(rt, "push of 0, no cell free", 3, b"t", b"", &mut run)?;
    stores.push(rt, "push of an id in use", 1, b"t", b"", &mut run)
}

// Times whose sum is the largest number there is, and one more.
pub(crate) fn clocks(rt: &impl Print) -> io::Result<()> {
    let mut run = [0xeeu8; 310];
    let mut stores = Stores::<SMALL>::fresh();
    let most = u64::MAX;
    let pushes = [
        ("push, created + try is 2^64", most, 1),
        ("push, created and try are 2^64 - 1", most, most),
        ("push, created + try is 2^64 - 1", most - 1, 1),
    ];
    for (what, created, try_ms) in pushes {
        stores.push_at(rt, what, 1, b"t", b"x", created, try_ms, &mut run)?;
    }
    let mut out = [0xeeu8; 44];
    stores.report(rt, "report on it", 1, &mut out)
}

// The ninth message.
pub(crate) fn records(rt: &impl Print) -> io::Result<()> {
    let mut stores = Stores::<SMALL>::fresh();
    for key in 0..8 {
        stores.pushed(key, &[7; 300]);
    }
    let mut run = [0xeeu8; 310];
    stores.push(rt, "push of a ninth message", 9, b"t", b"", &mut run)
}

// Wakes of kinds 0 to 3, and of an id that is not there.
pub(crate) fn kinds(rt: &impl Print) -> io::Result<()> {
    let mut run = [0xeeu8; 10960];
    let mut stores = Stores::<SMALL>::fresh();
    stores.pushed(1, &[7; 300]);
    stores.wake(rt, "wake 0", 0, 1, &mut run)?;
    stores.wake(rt, "wake 3", 3, 1, &mut run)?;
    stores.wake(rt, "wake 1 of an unknown id", 1, 2, &mut run)?;
    stores.wake(rt, "wake 2 of an unknown id", 2, 2, &mut run)?;
    stores.wake(rt, "wake 1, state 0", 1, 1, &mut run)?;
    stores.wake(rt, "wake 2, the first", 2, 1, &mut run)?;
    stores.wake(rt, "wake 1, timed out", 1, 1, &mut run)?;
    stores.wake(rt, "wake 2, the second", 2, 1, &mut run)?;
    stores.wake(rt, "wake 2, the third", 2, 1, &mut run)
}
