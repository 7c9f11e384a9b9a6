// A node's address, made of its public key: a port of `PublicKey::address`.

#![tactic(auto)]

ghost use Rattle.std.specs.Prelude.{◌≡◌, ◌<◌};
ghost use Rattle.answer.specs.Answers.{bare};
ghost use Rattle.answer.specs.Results.{answered};
ghost use Rattle.address.specs.Address.{first_byte, address_of};

use answer::Refusal;

// What an address starts with: 4, and the parity of the sum's first byte.
fn first_byte(x: u8) -> u8
    ensures { result ≡ first_byte x }
{
    4 | ((u8::count_ones(x) % 2) as u8)
}

// Writes the address of the key at the start of out. Refuses a key that is not 32 bytes long, then a buffer under 16.
#[tactic(auto, unfolding(crate::specs::Address::address_of), using(crate::proofs::Writes::address_is))]
pub fn address(key: &[u8], out: &mut [u8]) -> Result<(), Refusal>
    ensures { (record { answer = bare (answered result); out = out.new })
        ≡ address_of key.now out.old }
{
    if key.len() != 32 {
        return Err(Refusal::BadFrame);
    }
    if out.len() < 16 {
        return Err(Refusal::ShortOutput);
    }
    let sum = blake3::hash(key);
    let first = [first_byte(sum[0])];
    octets::copy_in(out, 0, &first);
    octets::copy_in(out, 1, &sum[1..16]);
    Ok(())
}
