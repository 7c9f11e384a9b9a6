// Runs vectors from outside through the topic rules. Writes each answer, and how many of them are the expected ones.

#![tactic(auto)]

mod books;
mod prefixes;

use std::io;

fn main(rt: HostRuntime) -> io::Result<()> {
    prefixes::run(&rt)?;
    books::run(&rt)
}
