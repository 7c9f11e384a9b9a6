// Cells by source, in stores of 45 cells: a piece that needs a cell where its record's source holds 30, and
// where it holds fewer.

use crate::make;
use crate::make::{LARGE, Stores};
use std::io;

// Two sources, by the byte that each address has sixteen times.
const FIRST: u8 = 0x11;

const OTHER: u8 = 0x33;

// The longest message is announced by a source.
fn announced(stores: &mut Stores<LARGE>, source: u8, key: u8) {
    stores.quiet_from(source, &make::frame(key, 0x80, 32500, 0, 0));
}

// Its pieces come, those at index `from` to before `end`, from the first source whoever announced it.
fn pieces(stores: &mut Stores<LARGE>, key: u8, from: u64, end: u64) {
    for i in from..end {
        stores.quiet(&make::frame(key, 0x10, i, 0, 250));
    }
}

// Two messages of the first source: 1 with n pieces, 2 with none.
fn held(n: u64) -> Stores<LARGE> {
    let mut stores = Stores::fresh();
    announced(&mut stores, FIRST, 1);
    pieces(&mut stores, 1, 0, n);
    announced(&mut stores, FIRST, 2);
    stores
}

// A piece of 250 bytes comes from the first source, with a line for it.
fn chunk(
    rt: &impl Print,
    what: &str,
    stores: &mut Stores<LARGE>,
    key: u8,
    index: u64,
) -> io::Result<()> {
    stores.frame_from(rt, what, FIRST, &make::frame(key, 0x10, index, 0, 250))
}

// A piece of so many bytes at an offset of message 1, with a line for it.
fn piece(
    rt: &impl Print,
    what: &str,
    stores: &mut Stores<LARGE>,
    index: u64,
    offset: u64,
    size: u64,
) -> io::Result<()> {
    stores.frame_from(rt, what, FIRST, &make::frame(1, 0x10, index, offset, size))
}

// The thirtieth cell and one more, at new indices and at a held one.
fn limit(rt: &impl Print) -> io::Result<()> {
    let mut stores = held(29);
    chunk(rt, "chunk, 29 cells of its source", &mut stores, 1, 29)?;
    chunk(rt, "chunk, 30 cells of its source", &mut stores, 1, 30)?;
    chunk(rt, "  of another id", &mut stores, 2, 0)?;
    piece(rt, "  of no bytes", &mut stores, 129, 32500, 0)?;
    piece(rt, "  at a held index", &mut stores, 29, 0, 251)
}

// A piece without bytes is the thirtieth. What is refused before, and else.
fn order(rt: &impl Print) -> io::Result<()> {
    let mut stores = held(29);
    piece(
        rt,
        "chunk of no bytes, 29 cells of its source",
        &mut stores,
        129,
        32500,
        0,
    )?;
    chunk(
        rt,
        "chunk, one of 30 cells without bytes",
        &mut stores,
        1,
        30,
    )?;
    chunk(rt, "  of an unknown id", &mut stores, 3, 30)?;
    piece(rt, "  past the end", &mut stores, 30, 32500, 250)?;
    piece(rt, "  at a high index", &mut stores, 130, 0, 250)?;
    piece(rt, "  of 249 bytes", &mut stores, 30, 0, 249)
}

// A piece of the first source comes from another sender, and another source's from the first.
fn senders(rt: &impl Print, stores: &mut Stores<LARGE>) -> io::Result<()> {
    let more = make::frame(1, 0x10, 30, 0, 250);
    stores.frame_from(
        rt,
        "chunk from another sender, 30 cells of its source",
        OTHER,
        &more,
    )?;
    let init = make::frame(3, 0x80, 32500, 0, 0);
    stores.frame_from(rt, "init from another source", OTHER, &init)?;
    chunk(rt, "  its chunk from a sender with 30 cells", stores, 3, 0)
}

// The other source takes the fifteen cells that are left.
fn others(rt: &impl Print) -> io::Result<()> {
    let mut stores = held(30);
    senders(rt, &mut stores)?;
    pieces(&mut stores, 3, 1, 14);
    chunk(rt, "  the last free cell", &mut stores, 3, 14)?;
    chunk(rt, "  no cell free", &mut stores, 3, 15)?;
    chunk(
        rt,
        "  no cell free, 30 cells of its source",
        &mut stores,
        1,
        30,
    )?;
    piece(rt, "  the same at a held index", &mut stores, 0, 0, 251)
}

// A message of one byte from the first source is whole.
fn whole(stores: &mut Stores<LARGE>, key: u8) {
    stores.quiet(&make::frame(key, 0x80, 1, 0, 0));
    stores.quiet(&make::frame(key, 0x10, 0, 0, 1));
    stores.quiet(&make::one_done(key));
}

// The oldest whole message is taken, with a line for it.
fn take(rt: &impl Print, stores: &mut Stores<LARGE>) -> io::Result<()> {
    let mut taken = [0xeeu8; 400];
    let mut run = [0xeeu8; 46];
    stores.take(rt, "  take", 1, &mut taken, &mut run)
}

// Two whole messages of one piece, and 28 of one that arrives.
fn wholes(rt: &impl Print) -> io::Result<()> {
    let mut stores = held(28);
    whole(&mut stores, 3);
    whole(&mut stores, 4);
    chunk(
        rt,
        "chunk, 30 cells of its source, 2 of them whole",
        &mut stores,
        1,
        28,
    )?;
    take(rt, &mut stores)?;
    chunk(rt, "  29 cells, 1 of them whole", &mut stores, 1, 28)?;
    chunk(rt, "  30 cells, 1 of them whole", &mut stores, 1, 29)
}

// An aborted gives the cells back, and an init that starts its message again, but no equal one.
fn given_back(rt: &impl Print) -> io::Result<()> {
    let mut stores = held(30);
    chunk(rt, "chunk, before an aborted", &mut stores, 2, 0)?;
    let aborted = make::frame(1, 0x20, 0, 0, 0);
    stores.frame_from(rt, "  aborted", FIRST, &aborted)?;
    chunk(rt, "  chunk", &mut stores, 2, 0)?;
    stores = held(30);
    let again = make::frame(1, 0x80, 32500, 0, 0);
    stores.frame_from(rt, "init again, 30 cells of its source", FIRST, &again)?;
    chunk(rt, "  chunk", &mut stores, 2, 0)?;
    let other = make::frame(1, 0x80, 32499, 0, 0);
    stores.frame_from(rt, "  init of 32499", FIRST, &other)?;
    chunk(rt, "  chunk", &mut stores, 2, 0)
}

// Where the second record's source stands.
const SOURCE: usize = 360;

// The other source's one piece is written over to the first, which has 30.
fn unsound(rt: &impl Print) -> io::Result<()> {
    let mut stores = held(30);
    announced(&mut stores, OTHER, 2);
    pieces(&mut stores, 2, 0, 1);
    octets::copy_in(&mut stores.recv, SOURCE, &[FIRST; 16]);
    let init = make::frame(1, 0x80, 32500, 0, 0);
    stores.frame_from(rt, "packet, 31 cells of a source", FIRST, &init)?;
    take(rt, &mut stores)
}

// A store to send has no such limit.
fn leaving(rt: &impl Print) -> io::Result<()> {
    let mut stores = Stores::<LARGE>::fresh();
    let mut run = [0xeeu8; 310];
    let longest = [7u8; 32500];
    stores.push(rt, "push of 25 cells", 1, b"t", &longest, &mut run)?;
    let more = [7u8; 26000];
    stores.push(rt, "push of 20 more", 2, b"t", &more, &mut run)?;
    stores.push(rt, "push of one more", 3, b"t", b"x", &mut run)
}

// All of them.
pub(crate) fn all(rt: &impl Print) -> io::Result<()> {
    limit(rt)?;
    order(rt)?;
    others(rt)?;
    wholes(rt)?;
    given_back(rt)?;
    unsound(rt)?;
    leaving(rt)
}
