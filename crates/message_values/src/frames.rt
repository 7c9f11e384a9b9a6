// Frames of each length near what a packet needs, size fields that more bytes belong to than came, and the
// place of the two refusals for it among the others.

ghost use Rattle.std.specs.Prelude.{◌≤◌};

use crate::make;
use crate::make::{Frame, SMALL, Stores};
use std::io;

// Size fields: the largest, the smallest that 36 more take past 64 bits, and the largest that they do not.
const MOST: u64 = u64::MAX;

const WRAPS: u64 = u64::MAX - 35;

const FITS: u64 = u64::MAX - 36;

// Of a frame and a byte behind it the first n come in, with that rule book and that run.
fn cut<const R: usize>(
    rt: &impl Print,
    stores: &mut Stores<SMALL>,
    frame: &Frame,
    n: usize,
    rules: &[u8],
    run: &mut [u8; R],
) -> io::Result<()> {
    let mut bytes = [0xeeu8; 1401];
    octets::copy_in(&mut bytes, 0, frame);
    print!(rt; "  frame of {n}")?;
    stores.packet(rt, "", make::start(&bytes, n), rules, true, run)
}

// The same where everybody is admitted and the run is long enough.
fn first(rt: &impl Print, stores: &mut Stores<SMALL>, frame: &Frame, n: usize) -> io::Result<()> {
    let mut run = [0xeeu8; 86];
    cut(rt, stores, frame, n, b"\0", &mut run)
}

// A frame whose bytes from n on are no part of its packet.
fn followed(frame: Frame, n: usize) -> Frame
    requires { n ≤ 1400 }
{
    let mut out = frame;
    octets::fill(&mut out, n, 1400 - n, 0xee);
    out
}

// Stores that take a packet of each kind: message 1 arrives with 300 bytes and leaves in state 1, message 2
// arrives with none, 3 leaves in state 0 and 4 in state 2.
fn ready() -> Stores<SMALL> {
    let mut stores = Stores::held();
    stores.quiet(&make::frame(2, 0x80, 0, 0, 0));
    stores.pushed(3, &[7; 300]);
    stores.pushed(4, &[7; 300]);
    stores.quiet(&make::frame(4, 0x81, 0, 0, 0));
    stores.quiet(&make::frame(4, 0x41, 0, 0, 0));
    stores
}

// A frame that needs n bytes: one fewer, and all; on stores made anew, one more.
fn edges(rt: &impl Print, what: &str, frame: Frame, n: usize) -> io::Result<()>
    requires { (1 ≤ n) × (n ≤ 1400) }
{
    println!(rt; "{what}")?;
    let bytes = followed(frame, n);
    let mut stores = ready();
    first(rt, &mut stores, &bytes, n - 1)?;
    first(rt, &mut stores, &bytes, n)?;
    stores = ready();
    first(rt, &mut stores, &bytes, n + 1)
}

// What each kind needs. Where a frame has two flags, the first that fits decides.
pub(crate) fn needed(rt: &impl Print) -> io::Result<()> {
    let init = make::frame(5, 0x80, 300, 0x0574000000000000, 0);
    edges(rt, "init, topic of 5", init, 26)?;
    let chunk = make::frame(1, 0x10, 0, 0, 250);
    edges(rt, "chunk, size 250", chunk, 286)?;
    edges(rt, "done", make::empty_done(2), 52)?;
    edges(rt, "read", make::frame(4, 0x08, 0, 0, 0), 12)?;
    edges(rt, "aborted", make::frame(1, 0x20, 0, 0, 0), 12)?;
    edges(rt, "ack init", make::frame(3, 0x81, 0, 0, 0), 12)?;
    let past = make::frame(1, 0x11, 0, 0, MOST);
    edges(rt, "ack chunk, size 2^64 - 1", past, 36)?;
    edges(rt, "ack done", make::frame(1, 0x41, 0, 0, 0), 12)?;
    edges(rt, "ack init and chunk", make::frame(3, 0x91, 0, 0, 0), 12)?;
    edges(rt, "ack chunk and done", make::frame(1, 0x51, 0, 0, 0), 36)?;
    let both = make::frame(1, 0x50, 0, 0, 250);
    edges(rt, "chunk and done, size 250", both, 286)?;
    edges(rt, "init and chunk", make::frame(5, 0x90, 0, 0, 0), 21)?;
    edges(rt, "read and aborted", make::frame(4, 0x28, 0, 0, 0), 12)
}

// A frame that needs n bytes, of each length near what some kind needs, and near the bounds of all.
fn lengths(rt: &impl Print, what: &str, frame: Frame, n: usize) -> io::Result<()>
    requires { n ≤ 1400 }
{
    println!(rt; "{what}")?;
    let bytes = followed(frame, n);
    let mut stores = ready();
    for n in [0, 1, 11, 12, 20, 21, 35, 36, 51, 52, 1399, 1400, 1401] {
        first(rt, &mut stores, &bytes, n)?;
    }
    Ok(())
}

// All those lengths of five packets. One that comes again, with other bytes behind it, is no other packet.
pub(crate) fn all(rt: &impl Print) -> io::Result<()> {
    lengths(rt, "init", make::frame(5, 0x80, 300, 0, 0), 21)?;
    let chunk = make::frame(1, 0x10, 1, 300, 0);
    lengths(rt, "chunk, size 0", chunk, 36)?;
    lengths(rt, "done", make::empty_done(2), 52)?;
    let ack = make::frame(1, 0x11, 0, 0, 0);
    lengths(rt, "ack chunk", ack, 36)?;
    lengths(rt, "no kind", make::frame(1, 0x02, 0, 0, 0), 12)
}

// Chunks of 36, 1,399 and 1,400 bytes with that size field.
fn size(rt: &impl Print, what: &str, stores: &mut Stores<SMALL>, field: u64) -> io::Result<()> {
    println!(rt; "{what}")?;
    let chunk = followed(make::frame(5, 0x10, 0, 0, field), 36);
    first(rt, stores, &chunk, 36)?;
    first(rt, stores, &chunk, 1399)?;
    first(rt, stores, &chunk, 1400)
}

// Size fields around what a frame can hold, and near 2^64.
pub(crate) fn sizes(rt: &impl Print) -> io::Result<()> {
    let mut stores = Stores::<SMALL>::fresh();
    stores.quiet(&make::frame(5, 0x80, 1400, 0, 0));
    size(rt, "chunk, size 2^64 - 1", &mut stores, MOST)?;
    size(rt, "chunk, size 2^64 - 36", &mut stores, WRAPS)?;
    size(rt, "chunk, size 2^64 - 37", &mut stores, FITS)?;
    size(rt, "chunk, size 1365", &mut stores, 1365)?;
    size(rt, "chunk, size 1364", &mut stores, 1364)?;
    size(rt, "chunk, size 1363", &mut stores, 1363)
}

// A frame that needs n bytes, with one fewer and with all, where the run is too short.
fn short_run(rt: &impl Print, stores: &mut Stores<SMALL>, frame: &Frame, n: usize) -> io::Result<()>
    requires { (1 ≤ n) × (n ≤ 1400) }
{
    let mut short = [0xeeu8; 85];
    cut(rt, stores, frame, n - 1, b"\0", &mut short)?;
    cut(rt, stores, frame, n, b"\0", &mut short)
}

// A frame with no bytes, with too few and with too many.
fn outside(rt: &impl Print, stores: &mut Stores<SMALL>, frame: &Frame) -> io::Result<()> {
    first(rt, stores, frame, 0)?;
    first(rt, stores, frame, 11)?;
    first(rt, stores, frame, 1401)
}

// What comes before the two refusals for a length, and what behind them.
pub(crate) fn order(rt: &impl Print) -> io::Result<()> {
    let init = make::frame(1, 0x80, 1, 0, 0);
    println!(rt; "init, bad receive store")?;
    let mut stores = Stores::<SMALL>::fresh();
    stores.recv = [0; SMALL];
    outside(rt, &mut stores, &init)?;
    println!(rt; "init, bad send store")?;
    let mut stores = Stores::<SMALL>::fresh();
    stores.send = [0; SMALL];
    outside(rt, &mut stores, &init)?;
    println!(rt; "chunk, size 2^64 - 1")?;
    let mut stores = Stores::<SMALL>::fresh();
    outside(rt, &mut stores, &make::frame(1, 0x10, 0, 0, MOST))?;
    println!(rt; "init, run of 85")?;
    short_run(rt, &mut stores, &init, 1)?;
    short_run(rt, &mut stores, &init, 21)?;
    println!(rt; "no kind, run of 85")?;
    short_run(rt, &mut stores, &make::frame(1, 0, 0, 0, 0), 12)?;
    println!(rt; "init, malformed rules")?;
    let mut run = [0xeeu8; 86];
    cut(rt, &mut stores, &init, 20, b"\x02", &mut run)?;
    cut(rt, &mut stores, &init, 21, b"\x02", &mut run)?;
    println!(rt; "chunk of an unknown id, size 250")?;
    let unknown = make::frame(1, 0x10, 0, 0, 250);
    first(rt, &mut stores, &unknown, 285)?;
    first(rt, &mut stores, &unknown, 286)
}
