// The plain sum of standard input, up to 65,536 bytes, as 64 hexadecimal digits and a line feed; nothing for a longer one.

#![tactic(auto)]

ghost use Rattle.std.specs.Prelude.{◌≡◌, [], unwrap_or, OnOk, IfOk, IfSome};
ghost use Rattle.std.specs.Io.KnownBytes.{Appends};
ghost use Rattle.sums.specs.Line.{sum_line};

use std::alloc::Global;
use std::io;
use std::io::{Read, Write};
use sums::line::{BYTES, line};

// What has so many bytes is too long, and no more of it is read.
const MOST: u64 = 65537;

// The line of an input.
fn sum<R: Read + Drop>(alloc: Global, input: R) -> io::Result<Option<[u8; BYTES]>>
    ensures { IfOk result (λ line. IfSome (R.remaining input) (λ all. unwrap_or line [] ≡ sum_line all)) }
{
    let bytes = first_bytes::read(alloc, input, MOST)?;
    Ok(line(&bytes))
}

// Writes the line of an input.
pub fn run<R: Read + Drop, W: Write>(alloc: Global, input: R, out: &mut W) -> io::Result<()>
    ensures { OnOk result (IfSome (R.remaining input) (λ all. Appends (W.contents out.old) (W.contents out.new) (sum_line all))) }
{
    match sum(alloc, input)? {
        Some(line) => out.write_all(&line),
        None => Ok(()),
    }
}

fn main(rt: HostRuntime) -> io::Result<()> {
    run(rt.alloc(), rt.stdin(), &mut io::writer(&rt))
}
