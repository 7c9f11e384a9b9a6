// The line of a call, and what it says of buffers: whether the call left them as they were.

use answer::Answer;
use std::io;

// Whether a buffer is as it was, from a place on.
pub(crate) fn is_kept(old: &[u8], new: &[u8], from: u64) -> bool {
    let mut pairs = old.iter().zip(new).skip(from as usize);
    pairs.all(|(a, b)| a == b)
}

// What a call answers, whether its stores are as they were, and whether its buffers are past what it wrote.
pub(crate) fn line(
    rt: &impl Print,
    what: &str,
    answer: Answer,
    stores: bool,
    buffers: bool,
) -> io::Result<()> {
    let Answer {
        number,
        run,
        wake,
        pieces,
    } = answer;
    print!(rt; "{what}: {number}, run {run}, wake {wake}, pieces {pieces}")?;
    let stores = if stores { "kept" } else { "changed" };
    let warning = if buffers { "" } else { ", BUFFERS CHANGED" };
    println!(rt; ", store {stores}{warning}")
}
