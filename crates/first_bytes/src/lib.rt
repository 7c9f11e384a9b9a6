// The first bytes of an input, for a program that needs no more of it.

#![tactic(auto)]

ghost use Rattle.std.specs.Prelude.{◌≡◌, take, IfOk, IfSome};

use std::alloc::Global;
use std::io;
use std::io::Read;

// The first bytes of an input, up to `most`.
pub fn read<R: Read + Drop>(alloc: Global, input: R, most: u64) -> io::Result<Vec<u8>>
    ensures { IfOk result (λ bytes. IfSome (R.remaining input) (λ all. bytes.items ≡ take most all)) }
{
    let mut bytes = Vec::new(alloc);
    input.take(most).read_to_end(&mut bytes)?;
    Ok(bytes)
}
