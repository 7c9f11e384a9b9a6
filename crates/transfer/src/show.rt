// The lines of the trace.

use crate::read::number;
use answer::Answer;
use std::io;

// The flags that decide which fields a packet has.
const INIT: u64 = 0x80;

const CHUNK: u64 = 0x10;

const DONE: u64 = 0x40;

// What a call answers, behind its name.
pub(crate) fn answer(rt: &impl Print, answer: Answer) -> io::Result<()> {
    let Answer {
        number,
        run,
        wake,
        pieces,
    } = answer;
    print!(rt; ": {number}, run {run}, wake {wake}, pieces {pieces}")
}

// The same as the rest of a line.
pub(crate) fn line(rt: &impl Print, given: Answer) -> io::Result<()> {
    answer(rt, given)?;
    println!(rt; "")
}

// The node with that address: the tablet's ends in 1, the office's in 2.
fn node(address: &[u8]) -> &'static str {
    match address {
        [.., 1] => "tablet",
        [.., 2] => "office",
        _ => "nobody",
    }
}

// The fields of the packet in a frame.
fn fields(rt: &impl Print, frame: &[u8], flags: u64) -> io::Result<()> {
    if flags & INIT != 0 {
        print!(rt; ", length {}", number(frame, 12, 8))?;
        return print!(rt; ", topic of {}", number(frame, 20, 1));
    }
    if flags & CHUNK != 0 {
        print!(rt; ", index {}", number(frame, 12, 8))?;
        print!(rt; ", offset {}", number(frame, 20, 8))?;
        return print!(rt; ", size {}", number(frame, 28, 8));
    }
    if flags & DONE != 0 {
        print!(rt; ", count {}", number(frame, 12, 8))?;
        return print!(rt; ", sum {:016x}", number(frame, 20, 8));
    }
    Ok(())
}

// A packet: who sends it to whom, its bytes, id, flags and fields.
pub(crate) fn packet(rt: &impl Print, from: &[u8], to: &[u8], frame: &[u8]) -> io::Result<()> {
    let flags = number(frame, 8, 1);
    print!(rt; "{} to {}: {} bytes", node(from), node(to), frame.len())?;
    print!(rt; ", id {}, flags {flags:02x}", number(frame, 0, 8))?;
    fields(rt, frame, flags)?;
    println!(rt; "")
}

// The fields of a report.
pub(crate) fn report(rt: &impl Print, out: &[u8; 44]) -> io::Result<()> {
    print!(rt; ", to {}", node(&out[..16]))?;
    print!(rt; ", state {}", number(out, 16, 1))?;
    print!(rt; ", started {}", number(out, 17, 1))?;
    print!(rt; ", sent {}", number(out, 18, 1))?;
    print!(rt; ", acked {}", number(out, 19, 1))?;
    print!(rt; ", created {}", number(out, 20, 8))?;
    print!(rt; ", end {}", number(out, 28, 8))?;
    print!(rt; ", length {}", number(out, 36, 8))
}

// The record of a message that was taken.
pub(crate) fn record(rt: &impl Print, taken: &[u8]) -> io::Result<()> {
    print!(rt; ", id {}", number(taken, 8, 8))?;
    print!(rt; ", reply {}", number(taken, 2, 1))?;
    print!(rt; ", length {}", number(taken, 48, 8))?;
    print!(rt; ", topic of {}", number(taken, 6, 1))
}
