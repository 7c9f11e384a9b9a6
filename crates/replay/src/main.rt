// Replays lists of calls on the library, and compares each answer with what the original Rust put out
// (README.md has the form of a list). The arguments name the lists. Writes a line for each: how many lines of
// each kind agree, or the first that does not.

#![tactic(auto)]

mod key;
mod kind;
mod list;
mod make;
mod node;
mod room;
mod shown;
mod text;
mod told;
mod value;

use list::Difference;
use std::io::Read;
use std::rt::Files;
use std::{env, fs, io};

// A list that has so many bytes is too long.
const MOST: usize = 131072;

// Replays the list in the file of that name, and writes what came of it. Answers whether it differs.
fn differs<R: Files + Alloc + Print>(rt: &R, name: &str) -> io::Result<bool> {
    print!(rt; "{name}")?;
    let Ok(file) = fs::open(rt, name) else {
        println!(rt; ": it cannot be opened")?;
        return Ok(true);
    };
    let mut text = Vec::new(rt.alloc());
    file.take(MOST as u64).read_to_end(&mut text)?;
    if text.len() == MOST {
        println!(rt; ": it is too long")?;
        return Ok(true);
    }
    match list::replay(&text) {
        Ok(counts) => {
            println!(rt; ": {counts}")?;
            Ok(false)
        }
        Err(Difference { line, why }) => {
            println!(rt; ": line {line}: {why}")?;
            Ok(true)
        }
    }
}

// Replays the lists that the arguments name.
fn main(rt: HostRuntime) -> io::Result<()> {
    let mut all: u64 = 0;
    let mut differ: u64 = 0;
    for name in env::args(&rt)?.skip(1) {
        if differs(&rt, &name)? {
            differ = differ.wrapping_add(1);
        }
        all = all.wrapping_add(1);
    }
    println!(rt; "{all} lists replayed, {differ} with a difference")
}
