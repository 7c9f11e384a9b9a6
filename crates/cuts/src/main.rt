// Every cut of a small survey: standard input has its length in decimal; a line for each cut goes to standard
// output, or nothing where that is no length with a list.

#![tactic(auto)]

ghost use Rattle.std.specs.Prelude.{◌≡◌, ◌≤◌, length, take, OnOk, IfOk, IfSome};
ghost use Rattle.std.specs.Io.KnownBytes.{Appends};
ghost use Rattle.cuts.specs.Cuts.{cuts_text};

use cutter::TEXT;
use std::alloc::Global;
use std::io;
use std::io::{Read, Write};

// A number up to 32,500 and its line feed have 6 bytes at most (`one-number-short` of crates/script): what
// has so many bytes is none, and no more of it is read.
const MOST: u64 = 7;

// The list that an input asks for. Answers how many bytes it has.
fn list<R: Read + Drop>(alloc: Global, input: R, text: &mut [u8; TEXT]) -> io::Result<usize>
    ensures in_bounds { IfOk result (λ n. n ≤ length text.new) }
    ensures value { IfOk result (λ n. IfSome (R.remaining input) (λ all. take n text.new ≡ cuts_text all)) }
{
    let bytes = first_bytes::read(alloc, input, MOST)?;
    Ok(cutter::list(&bytes, text).unwrap_or(0))
}

// Writes the list that an input asks for.
pub fn run<R: Read + Drop, W: Write>(alloc: Global, input: R, out: &mut W) -> io::Result<()>
    ensures { OnOk result (IfSome (R.remaining input) (λ all.
        Appends (W.contents out.old) (W.contents out.new) (cuts_text all))) }
{
    let mut text = [0u8; TEXT];
    let end = list(alloc, input, &mut text)?;
    out.write_all(&text[..end])
}

fn main(rt: HostRuntime) -> io::Result<()> {
    run(rt.alloc(), rt.stdin(), &mut io::writer(&rt))
}
