// Eight pieces a wake: which of ten go, in which order, and when they want sending again.

use crate::make;
use crate::make::{SMALL, Stores};
use answer::Answer;
use calendar::ALWAYS;
use std::io;

// The bytes of a whole piece in a run, and the byte of it that its index ends in.
const PIECE: usize = 1370;

const INDEX: usize = 53;

// A wake at that clock, with the indices of the pieces that it sends.
fn wake(rt: &impl Print, what: &str, stores: &mut Stores<SMALL>, clock: u64) -> io::Result<()> {
    let mut run = [0xeeu8; 10960];
    let woken = message::wake(
        &mut stores.send,
        1,
        &make::id(1),
        clock,
        &ALWAYS,
        0,
        &mut run,
    );
    let Answer {
        number,
        run: length,
        pieces,
        ..
    } = woken.into();
    print!(rt; "{what}, wake at {clock}: {number}, run {length}, pieces {pieces}")?;
    for index in run.iter().skip(INDEX).step_by(PIECE).take(pieces as usize) {
        print!(rt; " {index}")?;
    }
    println!(rt; "")
}

// A message of ten whole pieces is leaving, in state 1.
fn ten() -> Stores<SMALL> {
    let mut stores = Stores::fresh();
    stores.pushed(1, &[7; 13000]);
    stores.quiet(&make::frame(1, 0x81, 0, 0, 0));
    stores
}

// Equal stamps by index, then the oldest stamp first; the clock at its highest, and gone back.
pub(crate) fn stamps(rt: &impl Print) -> io::Result<()> {
    let mut stores = ten();
    wake(rt, "ten Started", &mut stores, 1000)?;
    wake(rt, "two Started", &mut stores, 1000)?;
    wake(rt, "none due", &mut stores, 1099)?;
    wake(rt, "ten due", &mut stores, 1100)?;
    wake(rt, "two due", &mut stores, 1100)?;
    stores.quiet(&make::frame(1, 0x11, 0, 0, 0));
    wake(rt, "nine due", &mut stores, 1200)?;
    wake(rt, "nine due, piece 9 the oldest", &mut stores, 1300)?;
    wake(rt, "one due", &mut stores, 1300)?;
    wake(rt, "none due", &mut stores, 1399)?;
    wake(rt, "nine due", &mut stores, u64::MAX)?;
    wake(rt, "one due", &mut stores, u64::MAX)?;
    wake(rt, "none due", &mut stores, u64::MAX)?;
    wake(rt, "none due, the clock gone back", &mut stores, 0)
}

// Started ones go before due ones; a stamp of 0.
pub(crate) fn started(rt: &impl Print) -> io::Result<()> {
    let mut stores = ten();
    wake(rt, "ten Started", &mut stores, 0)?;
    wake(rt, "two Started, eight due", &mut stores, 100)?;
    wake(rt, "two due", &mut stores, 100)?;
    wake(rt, "none due", &mut stores, 199)?;
    wake(rt, "ten due", &mut stores, 200)
}
