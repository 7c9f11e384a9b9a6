// Output buffers one byte below each bound, and at it.

use crate::make;
use crate::make::{SMALL, Stores};
use std::io;

// The runs of a packet and of a push.
pub(crate) fn replies(rt: &impl Print) -> io::Result<()> {
    let mut stores = Stores::<SMALL>::fresh();
    let init = make::frame(1, 0x80, 1, 0, 0);
    let mut short = [0xeeu8; 85];
    stores.packet(rt, "packet, run of 85", &init, b"\0", true, &mut short)?;
    let mut right = [0xeeu8; 86];
    stores.packet(rt, "packet, run of 86", &init, b"\0", true, &mut right)?;
    let mut short = [0xeeu8; 309];
    stores.push(rt, "push, run of 309", 1, b"t", b"x", &mut short)?;
    let mut right = [0xeeu8; 310];
    stores.push(rt, "push, run of 310", 1, b"t", b"x", &mut right)
}

// The runs of both wakes.
pub(crate) fn wakes(rt: &impl Print) -> io::Result<()> {
    let mut stores = Stores::<SMALL>::held();
    let mut short = [0xeeu8; 10959];
    stores.wake(rt, "wake 1, run of 10959", 1, 1, &mut short)?;
    let mut right = [0xeeu8; 10960];
    stores.wake(rt, "wake 1, run of 10960", 1, 1, &mut right)?;
    let mut short = [0xeeu8; 45];
    stores.wake(rt, "wake 2, run of 45", 2, 1, &mut short)?;
    let mut right = [0xeeu8; 46];
    stores.wake(rt, "wake 2, run of 46", 2, 1, &mut right)
}

// The report.
pub(crate) fn reports(rt: &impl Print) -> io::Result<()> {
    let mut stores = Stores::<SMALL>::held();
    let mut short = [0xeeu8; 43];
    stores.report(rt, "report of 43", 1, &mut short)?;
    let mut right = [0xeeu8; 44];
    stores.report(rt, "report of 44", 1, &mut right)?;
    let mut more = [0xeeu8; 60];
    stores.report(rt, "report of 60", 1, &mut more)?;
    stores.report(rt, "report on an unknown id", 2, &mut more)
}

// A message of one byte is whole.
fn whole() -> Stores<SMALL> {
    let mut stores = Stores::fresh();
    stores.quiet(&make::frame(1, 0x80, 1, 0, 0));
    stores.quiet(&make::frame(1, 0x10, 0, 0, 1));
    stores.quiet(&make::one_done(1));
    stores
}

// Takes with room for that record, in a run of 46.
fn take(rt: &impl Print, what: &str, stores: &mut Stores<SMALL>) -> io::Result<()> {
    let mut taken = [0xeeu8; 329];
    let mut run = [0xeeu8; 46];
    stores.take(rt, what, 1, &mut taken, &mut run)
}

// The data and the run of the message that is taken.
pub(crate) fn takes(rt: &impl Print) -> io::Result<()> {
    let mut stores = whole();
    let mut short = [0xeeu8; 328];
    let mut run = [0xeeu8; 46];
    stores.take(rt, "take, data of 328", 1, &mut short, &mut run)?;
    let mut taken = [0xeeu8; 329];
    let mut below = [0xeeu8; 45];
    stores.take(rt, "take, run of 45", 1, &mut taken, &mut below)?;
    take(rt, "take, data of 329, run of 46", &mut stores)?;
    take(rt, "take, none whole", &mut stores)
}
