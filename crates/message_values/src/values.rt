// Document 01's values that are no theorems.

use crate::make;
use crate::make::{SMALL, Stores};
use std::io;

// A short piece at index 0: kept where 0 is the top index.
pub(crate) fn pieces(rt: &impl Print) -> io::Result<()> {
    let mut stores = Stores::<SMALL>::fresh();
    let init = make::frame(1, 0x80, 250, 0, 0);
    stores.frame(rt, "init of 250", &init)?;
    let chunk = make::frame(1, 0x10, 0, 0, 249);
    stores.frame(rt, "  index 0, offset 0, size 249", &chunk)?;
    let init = make::frame(2, 0x80, 251, 0, 0);
    stores.frame(rt, "init of 251", &init)?;
    let chunk = make::frame(2, 0x10, 0, 0, 249);
    stores.frame(rt, "  index 0, offset 0, size 249", &chunk)
}

// The longest topic, and one byte more.
pub(crate) fn topics(rt: &impl Print) -> io::Result<()> {
    let mut run = [0xeeu8; 310];
    let mut stores = Stores::<SMALL>::fresh();
    let longer = [0x74u8; 256];
    stores.push(rt, "push, topic of 256", 1, &longer, b"", &mut run)?;
    let longest = [0x74u8; 255];
    stores.push(rt, "push, topic of 255", 1, &longest, b"", &mut run)
}
