// Packets that come in: the refusals of each kind.

use crate::make;
use crate::make::{SMALL, Stores};
use std::io;

// Inits: the rule book (a malformed one, one that rejects, both also with the reply flag), and the longest
// length.
pub(crate) fn inits(rt: &impl Print) -> io::Result<()> {
    let mut stores = Stores::<SMALL>::fresh();
    let init = make::frame(1, 0x80, 1, 0, 0);
    stores.init(rt, "init, malformed rules", &init, b"\x02")?;
    stores.init(rt, "init, no rules", &init, b"")?;
    stores.init(rt, "init, closed topic", &init, b"\x01")?;
    let reply = make::frame(1, 0x84, 1, 0, 0);
    stores.init(rt, "reply init, malformed rules", &reply, b"\x02")?;
    stores.init(rt, "reply init, closed topic", &reply, b"\x01")?;
    let longer = make::frame(2, 0x80, 32501, 0, 0);
    stores.frame(rt, "init of 32501", &longer)?;
    let longest = make::frame(2, 0x80, 32500, 0, 0);
    stores.frame(rt, "init of 32500", &longest)
}

// Inits with no record left, and of a held id.
pub(crate) fn records(rt: &impl Print) -> io::Result<()> {
    let mut stores = Stores::<SMALL>::fresh();
    for key in 0..8 {
        stores.quiet(&make::frame(key, 0x80, 1, 0, 0));
    }
    let ninth = make::frame(8, 0x80, 1, 0, 0);
    stores.frame(rt, "init of a ninth message", &ninth)?;
    let same = make::frame(7, 0x80, 1, 0, 0);
    stores.frame(rt, "the same init of a held id", &same)?;
    let other = make::frame(7, 0x80, 2, 0, 0);
    stores.frame(rt, "another init of a held id", &other)
}

// Chunks of a message of 1,300 bytes, whose top index is 5.
pub(crate) fn chunks(rt: &impl Print) -> io::Result<()> {
    let mut stores = Stores::<SMALL>::fresh();
    stores.quiet(&make::frame(1, 0x80, 1300, 0, 0));
    let unknown = make::frame(2, 0x10, 0, 0, 250);
    stores.frame(rt, "chunk of an unknown id", &unknown)?;
    let past = make::frame(1, 0x10, 0, 1, 1300);
    stores.frame(rt, "chunk, offset 1, size 1300", &past)?;
    let wrap = make::frame(1, 0x10, 0, u64::MAX, 1);
    stores.frame(rt, "chunk, offset 2^64 - 1, size 1", &wrap)?;
    let high = make::frame(1, 0x10, 6, 0, 250);
    stores.frame(rt, "chunk, index 6", &high)?;
    let short = make::frame(1, 0x10, 4, 0, 249);
    stores.frame(rt, "chunk, index 4, size 249", &short)?;
    let top = make::frame(1, 0x10, 5, 1300, 0);
    stores.frame(rt, "chunk, index 5, offset 1300, size 0", &top)?;
    let same = make::frame(1, 0x10, 5, 1300, 0);
    stores.frame(rt, "the same again", &same)
}

// Short pieces of a message of 1,300 bytes, whose top index is 5: at its end, a byte before it and one past
// it.
pub(crate) fn ends(rt: &impl Print) -> io::Result<()> {
    let mut stores = Stores::<SMALL>::fresh();
    stores.quiet(&make::frame(1, 0x80, 1300, 0, 0));
    let before = make::frame(1, 0x10, 4, 1050, 249);
    stores.frame(rt, "chunk, index 4, offset 1050, size 249", &before)?;
    let last = make::frame(1, 0x10, 4, 1051, 249);
    stores.frame(rt, "chunk, index 4, offset 1051, size 249", &last)?;
    let past = make::frame(1, 0x10, 4, 1052, 249);
    stores.frame(rt, "chunk, index 4, offset 1052, size 249", &past)?;
    let high = make::frame(1, 0x10, 6, 1051, 249);
    stores.frame(rt, "chunk, index 6, offset 1051, size 249", &high)?;
    let empty = make::frame(1, 0x10, 3, 1300, 0);
    stores.frame(rt, "chunk, index 3, offset 1300, size 0", &empty)?;
    let early = make::frame(1, 0x10, 3, 1299, 0);
    stores.frame(rt, "chunk, index 3, offset 1299, size 0", &early)
}

// The last byte of a message of 32,500 bytes with every cell taken.
fn last(rt: &impl Print, stores: &mut Stores<SMALL>) -> io::Result<()> {
    let chunk = make::frame(1, 0x10, 25, 32499, 1);
    stores.frame(rt, "chunk that ends the message, no cell free", &chunk)
}

// Its cells are free again with the init of another message, not with its own.
fn restarted(rt: &impl Print, stores: &mut Stores<SMALL>) -> io::Result<()> {
    let again = make::frame(1, 0x80, 32500, 0, 0);
    stores.frame(rt, "init again, no cell free", &again)?;
    let other = make::frame(1, 0x80, 32499, 0, 0);
    stores.frame(rt, "init of 32499", &other)
}

// Chunks of a message of 32,500 bytes with every cell taken.
pub(crate) fn cells(rt: &impl Print) -> io::Result<()> {
    let mut stores = Stores::<SMALL>::fresh();
    stores.quiet(&make::frame(1, 0x80, 32500, 0, 0));
    for i in 0..25 {
        stores.quiet(&make::frame(1, 0x10, i, 0, 250));
    }
    let next = make::frame(1, 0x10, 25, 0, 250);
    stores.frame(rt, "chunk at a new index, no cell free", &next)?;
    last(rt, &mut stores)?;
    let again = make::frame(1, 0x10, 24, 0, 251);
    stores.frame(rt, "chunk at a held index, no cell free", &again)?;
    restarted(rt, &mut stores)?;
    stores.frame(rt, "chunk at a new index", &next)
}

// Dones of a message of 1,550 bytes: pieces 1 and then 0 come, the second too short and then right, but with
// another sum.
pub(crate) fn dones(rt: &impl Print) -> io::Result<()> {
    let mut stores = Stores::<SMALL>::fresh();
    let done = make::frame(1, 0x40, 2, 0, 0);
    stores.frame(rt, "done of an unknown id", &done)?;
    stores.quiet(&make::frame(1, 0x80, 1550, 0, 0));
    stores.quiet(&make::frame(1, 0x10, 1, 1300, 250));
    let few = make::frame(1, 0x40, 1, 0, 0);
    stores.frame(rt, "done, count 1 of 2", &few)?;
    stores.frame(rt, "done, piece 0 is missing", &done)?;
    stores.quiet(&make::frame(1, 0x10, 0, 0, 1299));
    stores.frame(rt, "done, piece 0 is a byte too short", &done)?;
    stores.quiet(&make::frame(1, 0x10, 0, 0, 1300));
    stores.frame(rt, "done, another sum", &done)
}

// A message that becomes whole, and what comes for it then.
pub(crate) fn wholes(rt: &impl Print) -> io::Result<()> {
    let mut stores = Stores::<SMALL>::fresh();
    stores.quiet(&make::frame(1, 0x80, 0, 0, 0));
    let done = make::empty_done(1);
    stores.unknown(rt, "done, no key", &done)?;
    stores.frame(rt, "done", &done)?;
    stores.frame(rt, "done of a whole id", &done)?;
    let init = make::frame(1, 0x80, 0, 0, 0);
    stores.frame(rt, "init of a whole id", &init)?;
    let chunk = make::frame(1, 0x10, 0, 0, 0);
    stores.frame(rt, "chunk of a whole id", &chunk)?;
    let aborted = make::frame(1, 0x20, 0, 0, 0);
    stores.frame(rt, "aborted of a whole id", &aborted)
}
