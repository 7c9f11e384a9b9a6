// Acknowledgements and reads, in each state of the message that they are for.

use crate::make;
use crate::make::{SMALL, Stores};
use std::io;

// The packets for a message that leaves, in whatever state it is.
fn all(rt: &impl Print, stores: &mut Stores<SMALL>) -> io::Result<()> {
    let read = make::frame(1, 0x08, 0, 0, 0);
    stores.frame(rt, "  read", &read)?;
    let past = make::frame(1, 0x11, 1, 0, 0);
    stores.frame(rt, "  ack chunk 1", &past)?;
    let chunk = make::frame(1, 0x11, 0, 0, 0);
    stores.frame(rt, "  ack chunk 0", &chunk)?;
    let done = make::frame(1, 0x41, 0, 0, 0);
    stores.frame(rt, "  ack done", &done)?;
    let init = make::frame(1, 0x81, 0, 0, 0);
    stores.frame(rt, "  ack init", &init)
}

// From an id that is not there to one that was read.
pub(crate) fn states(rt: &impl Print) -> io::Result<()> {
    let mut stores = Stores::<SMALL>::fresh();
    println!(rt; "acknowledgements, unknown id")?;
    all(rt, &mut stores)?;
    stores.pushed(1, &[7; 300]);
    println!(rt; "acknowledgements, state 0 and then 1")?;
    all(rt, &mut stores)?;
    println!(rt; "acknowledgements, state 1 and then 2")?;
    all(rt, &mut stores)?;
    println!(rt; "acknowledgements, state 2 and then 3")?;
    all(rt, &mut stores)?;
    println!(rt; "acknowledgements, state 3")?;
    all(rt, &mut stores)
}
