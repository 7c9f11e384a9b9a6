// Stores that are not sound or not in their role, and setup.

use crate::ask::Wake;
use crate::make::{SMALL, Stores};
use crate::{make, show};
use std::io;

// Every call on a pair of stores.
fn calls(rt: &impl Print, stores: &mut Stores<SMALL>) -> io::Result<()> {
    let mut run = [0xeeu8; 10960];
    let mut out = [0xeeu8; 400];
    let init = make::frame(1, 0x80, 1, 0, 0);
    stores.packet(rt, "  packet", &init, b"\0", true, &mut run)?;
    stores.push(rt, "  push", 1, b"t", b"x", &mut run)?;
    stores.wake(rt, "  wake 1", 1, 1, &mut run)?;
    let none = Wake {
        kind: 1,
        key: 1,
        calendar: b"",
        unix_ms: 0,
    };
    stores.wake_at(rt, "  wake 1, no calendar", none, &mut run)?;
    stores.wake(rt, "  wake 2", 2, 1, &mut run)?;
    stores.report(rt, "  report", 1, &mut out)?;
    stores.take(rt, "  take", 0, &mut out, &mut run)
}

// Stores of zeros, of 255s, and fresh ones in each other's place.
pub(crate) fn unsound(rt: &impl Print) -> io::Result<()> {
    println!(rt; "stores of zeros")?;
    calls(rt, &mut Stores::filled(0))?;
    println!(rt; "stores of 255s")?;
    calls(rt, &mut Stores::filled(255))?;
    println!(rt; "stores in each other's place")?;
    let Stores { recv, send } = Stores::fresh();
    let mut swapped = Stores {
        recv: send,
        send: recv,
    };
    calls(rt, &mut swapped)
}

// A packet where only one of the stores is sound.
pub(crate) fn one_sound(rt: &impl Print) -> io::Result<()> {
    let init = make::frame(1, 0x80, 1, 0, 0);
    let mut stores = Stores::<SMALL>::fresh();
    stores.send = [0; SMALL];
    stores.frame(rt, "packet, bad send store", &init)?;
    let mut stores = Stores::<SMALL>::fresh();
    stores.recv = [0; SMALL];
    stores.frame(rt, "packet, bad receive store", &init)
}

// Setup of a store in that role, also one that there is not.
fn setup<const N: usize>(rt: &impl Print, store: &mut [u8; N], role: u64) -> io::Result<()> {
    let old = *store;
    let made = message::setup(store, role);
    print!(rt; "setup {role} of {N}")?;
    show::line(rt, "", made.into(), *store == old, true)
}

// Setup of each role, and of lengths near those of one cell.
pub(crate) fn setups(rt: &impl Print) -> io::Result<()> {
    let mut store = [0xeeu8; SMALL];
    setup(rt, &mut store, 0)?;
    setup(rt, &mut store, 3)?;
    setup(rt, &mut store, 1)?;
    setup(rt, &mut store, 2)?;
    let mut store = [0xeeu8; 2640];
    setup(rt, &mut store, 1)?;
    let mut store = [0xeeu8; 4019];
    setup(rt, &mut store, 1)?;
    let mut store = [0xeeu8; 4021];
    setup(rt, &mut store, 1)?;
    let mut store = [0xeeu8; 4020];
    setup(rt, &mut store, 1)
}
