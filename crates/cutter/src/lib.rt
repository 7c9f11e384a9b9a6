// Every cut of a small survey as text: the sizes of its pieces, a line for each way to cut it.

#![tactic(auto)]

mod lines;

ghost use Rattle.std.specs.Prelude.{◌≡◌};
ghost use Rattle.cutter.specs.Cuts.{is_length};
ghost use Rattle.cutter.specs.Text.{answer_to, cuts_of};

use answer::Refusal;
use lines::UNIT;

// The longest survey that has a list.
const LONGEST: usize = 3000;

// The bytes of its text, the longest.
pub const TEXT: usize = 49766;

// Whether a survey of this length has a list.
fn is_length(n: usize) -> bool
    ensures { result ≡ is_length n }
{
    n % UNIT == 0 && (UNIT..=LONGEST).contains(&n)
}

// Writes every cut of the length that the input asks for, a line each, and answers how many bytes these are;
// refuses what asks for none.
pub fn list(input: &[u8], out: &mut [u8; TEXT]) -> Result<usize, Refusal>
    ensures { (record { answer = answer_to result; out = out.new }) ≡ cuts_of input.now out.old }
{
    match script::one_number(input) {
        Some(total) if is_length(total) => Ok(lines::put_cuts(out, 0, b"", UNIT, total / UNIT - 1)),
        _ => Err(Refusal::NoCuts),
    }
}
