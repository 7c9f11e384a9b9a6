// Writes what the wire crates give for fixed inputs: the kind of all 256 flag bytes, a dozen addresses, and
// an entry of each kind of packet. The file stdout holds what tools/wire_values.py computes for the same
// inputs without them.

#![tactic(auto)]

ghost use Rattle.std.specs.Prelude.{◌≡◌, ◌≤◌, length};

use packet::header::{FLAG_ABORTED, FLAG_READ, Kind, kind_of};
use packet::label::labelled;
use packet::needed;
use packet::reader::Frame;
use packet::run::{Position, put_chunk, put_done, put_header, put_init, put_reply};
use std::{array, io};

// Whom the packets go between, and the id of their message.
const FROM: [u8; 16] = [0xaa; 16];

const TO: [u8; 16] = [0xbb; 16];

const ID: [u8; 8] = [1, 2, 3, 4, 5, 6, 7, 8];

// A line with the bytes in hexadecimal.
fn write_hex(rt: &impl Print, bytes: &[u8]) -> io::Result<()> {
    for b in bytes {
        print!(rt; "{b:02x}")?;
    }
    println!(rt)
}

// A letter for each kind, small for an acknowledgement.
fn letter(kind: Kind) -> char {
    match kind {
        Kind::Init => 'I',
        Kind::Chunk => 'C',
        Kind::Done => 'D',
        Kind::Read => 'R',
        Kind::Aborted => 'A',
        Kind::AckInit => 'i',
        Kind::AckChunk => 'c',
        Kind::AckDone => 'd',
        Kind::Nothing => '.',
    }
}

// The kinds of all flag bytes, 32 to a line.
fn kinds(rt: &impl Print) -> io::Result<()> {
    for flags in 0..=255u8 {
        print!(rt; "{}", letter(kind_of(flags)))?;
        if flags % 32 == 31 {
            println!(rt)?;
        }
    }
    Ok(())
}

// The key number k: byte j is 37 k + 11 j.
fn key(k: u8) -> [u8; 32] {
    array::from_fn(|j| ((37 * usize::from(k) + 11 * j) % 256) as u8)
}

// The addresses of a dozen keys.
fn addresses(rt: &impl Print) -> io::Result<()> {
    for k in 0..12 {
        let mut out = [0; 16];
        let _ = address::address(&key(k), &mut out);
        write_hex(rt, &out)?;
    }
    Ok(())
}

// A frame: byte i is 7 i + 3.
fn frame() -> [u8; 1400] {
    array::from_fn(|i| ((7 * i + 3) % 256) as u8)
}

// The entry that `put` writes into so many bytes, which were 0xEE before.
fn write_entry<F: FnOnce(&mut [u8])>(rt: &impl Print, room: usize, put: F) -> io::Result<()>
    requires room { room ≤ 320 }
    requires put { (run : _) → length run.now ≡ room → F.pre put run }
{
    let mut run = [0xee; 320];
    put(&mut run[..room]);
    write_hex(rt, &run[..room])
}

// An entry of each kind of packet, three bytes into the buffer.
fn packets(rt: &impl Print) -> io::Result<()> {
    let label = labelled(&ID, &FROM, &TO, true, 32500);
    write_entry(rt, 100, |run| put_init(run, 3, label, b"duct"))?;
    let at = Position {
        index: 24,
        offset: 31200,
    };
    let piece = b"airflow";
    write_entry(rt, 100, |run| put_chunk(run, 3, &FROM, &TO, &ID, at, piece))?;
    let sum = key(1);
    write_entry(rt, 100, |run| put_done(run, 3, &FROM, &TO, &ID, 25, &sum))?;
    for flags in [FLAG_ABORTED, FLAG_READ] {
        write_entry(rt, 100, |run| put_header(run, 3, &FROM, &TO, &ID, flags))?;
    }
    Ok(())
}

// The entry of an init with the longest topic there can be.
fn longest_topic(rt: &impl Print) -> io::Result<()> {
    let label = labelled(&ID, &FROM, &TO, false, 0);
    write_entry(rt, 320, |run| put_init(run, 3, label, &[0x74; 255]))
}

// The three replies to a frame.
fn replies(rt: &impl Print) -> io::Result<()> {
    let f = frame();
    for n in [21, 36, 52] {
        write_entry(rt, 100, |run| put_reply(run, 3, &FROM, &TO, &f, n))?;
    }
    Ok(())
}

// The fields that a frame gives as each kind of packet: its topic if all of it came.
fn fields(rt: &impl Print) -> io::Result<()> {
    let bytes = frame();
    let frame = Frame::new(&bytes);
    write_hex(rt, frame.id())?;
    println!(rt; "{}", frame.length())?;
    if needed::is_enough(Kind::Init, &bytes) {
        write_hex(rt, frame.topic())?;
    }
    println!(rt; "{}", frame.index())?;
    println!(rt; "{}", frame.offset())?;
    println!(rt; "{}", frame.size())?;
    write_hex(rt, frame.sum())
}

fn main(rt: HostRuntime) -> io::Result<()> {
    kinds(&rt)?;
    addresses(&rt)?;
    packets(&rt)?;
    longest_topic(&rt)?;
    replies(&rt)?;
    fields(&rt)
}
