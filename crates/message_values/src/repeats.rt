// An init that comes again behind a piece that made the slots grow, and inits that say something else.

use crate::make;
use crate::make::{Frame, SMALL, Stores};
use std::io;

// A message of 500 bytes with its piece 1: two slots, where its init gave it one.
fn arriving() -> Stores<SMALL> {
    let mut stores = Stores::fresh();
    stores.quiet(&make::frame(1, 0x80, 500, 0, 0));
    stores.quiet(&make::frame(1, 0x10, 1, 250, 250));
    stores
}

// A count of 2 tells the slots: 14, a gap, where there are two, 13 where there is one.
fn slots(rt: &impl Print, stores: &mut Stores<SMALL>) -> io::Result<()> {
    let done = make::frame(1, 0x40, 2, 0, 0);
    stores.frame(rt, "  done, count 2", &done)
}

// What is not among the five: the flags but init and reply, and bytes 9 to 11.
fn odd() -> Frame {
    let mut out = make::frame(1, 0xfa, 500, 0, 0);
    out[9] = 1;
    out[10] = 2;
    out[11] = 3;
    out
}

// The init again, as it was and with other bytes that do not count; then refused.
pub(crate) fn equal(rt: &impl Print) -> io::Result<()> {
    let mut stores = arriving();
    let init = make::frame(1, 0x80, 500, 0, 0);
    stores.frame(rt, "init again behind a piece", &init)?;
    slots(rt, &mut stores)?;
    stores.frame(rt, "  other flags, bytes 9 to 11", &odd())?;
    slots(rt, &mut stores)?;
    stores.init(rt, "  malformed rules", &init, b"\x02")?;
    stores.init(rt, "  closed topic", &init, b"\x01")?;
    slots(rt, &mut stores)
}

// Inits that say something else: the length, the topic, the reply flag.
pub(crate) fn others(rt: &impl Print) -> io::Result<()> {
    let mut stores = arriving();
    let longer = make::frame(1, 0x80, 501, 0, 0);
    stores.frame(rt, "init of another length", &longer)?;
    slots(rt, &mut stores)?;
    stores = arriving();
    let about = make::frame(1, 0x80, 500, 0x0174000000000000, 0);
    stores.frame(rt, "init of another topic", &about)?;
    slots(rt, &mut stores)?;
    stores = arriving();
    let reply = make::frame(1, 0x84, 500, 0, 0);
    stores.frame(rt, "init of a reply", &reply)?;
    slots(rt, &mut stores)
}
