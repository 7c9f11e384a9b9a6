// The classroom: standard input has the length of a survey and letters for its packets; a line for the push
// and for each of 50 rounds goes to standard output, or nothing where that is no input.

#![tactic(auto)]

ghost use Rattle.std.specs.Prelude.{◌≡◌, ◌≤◌, length, take, OnOk, IfOk, IfSome};
ghost use Rattle.std.specs.Io.KnownBytes.{Appends};
ghost use Rattle.lesson.specs.Classroom.{classroom_of};

use lesson::TEXT;
use std::alloc::Global;
use std::io;
use std::io::{Read, Write};

// The longest input has 2,007 bytes (`input-short` of crates/script): what has so many bytes is none, and no
// more of it is read.
const MOST: u64 = 2008;

// The lines for an input. Answers how many bytes they have.
fn lines<R: Read + Drop>(alloc: Global, input: R, text: &mut [u8; TEXT]) -> io::Result<usize>
    ensures in_bounds { IfOk result (λ n. n ≤ length text.new) }
    ensures value { IfOk result (λ n. IfSome (R.remaining input) (λ all. take n text.new ≡ classroom_of all)) }
{
    let bytes = first_bytes::read(alloc, input, MOST)?;
    Ok(lesson::classroom(&bytes, text))
}

// Writes the lines for an input. `cuts` has the same for its list: a function for both would be handed the call and the
// buffer, which is all that there is in each.
pub fn run<R: Read + Drop, W: Write>(alloc: Global, input: R, out: &mut W) -> io::Result<()>
    ensures { OnOk result (IfSome (R.remaining input) (λ all.
        Appends (W.contents out.old) (W.contents out.new) (classroom_of all))) }
{
    let mut text = [0u8; TEXT];
    let end = lines(alloc, input, &mut text)?;
    out.write_all(&text[..end])
}

fn main(rt: HostRuntime) -> io::Result<()> {
    run(rt.alloc(), rt.stdin(), &mut io::writer(&rt))
}
