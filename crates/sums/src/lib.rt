// Sums that only the holders of a key can make, and keys derived from a context: BLAKE3's keyed hash and key derivation as
// calls. Beside them, what the program `plain_sum` writes.

#![tactic(auto)]

pub mod line;

ghost use Rattle.std.specs.Prelude.{◌≡◌};
ghost use Rattle.answer.specs.Answers.{bare};
ghost use Rattle.answer.specs.Results.{answered};
ghost use Rattle.sums.specs.Sums.{keyed_hash_of, derive_key_of};

use answer::Refusal;

// The longest output.
const LONGEST: usize = 65536;

// Fills `out` with the keyed hash of the input. Refuses a key that is not 32 bytes long and an output over 65,536.
#[tactic(auto, unfolding(crate::specs::Sums::keyed_hash_of))]
pub fn keyed_hash(key: &[u8], input: &[u8], out: &mut [u8]) -> Result<(), Refusal>
    ensures { (record { answer = bare (answered result); out = out.new })
        ≡ keyed_hash_of key.now input.now out.old }
{
    if key.len() != blake3::KEY || out.len() > LONGEST {
        return Err(Refusal::BadLengths);
    }
    blake3::keyed_hash(key, input, out);
    Ok(())
}

// Fills `out` with the key that the context and the key material give. Refuses an output over 65,536.
#[tactic(auto, unfolding(crate::specs::Sums::derive_key_of))]
pub fn derive_key(context: &[u8], material: &[u8], out: &mut [u8]) -> Result<(), Refusal>
    ensures { (record { answer = bare (answered result); out = out.new })
        ≡ derive_key_of context.now material.now out.old }
{
    if out.len() > LONGEST {
        return Err(Refusal::BadLengths);
    }
    blake3::derive_key(context, material, out);
    Ok(())
}
