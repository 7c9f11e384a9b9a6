// The prefix test of a subnet (RFC 4291, 2.3): whole bytes first, then the bits of the last byte under a mask.
ghost use Rattle.std.specs.Prelude.{◌≡◌, ◌-◌, ◌/◌, ◌^◌, ◌<◌, ◌≤◌, length, eqb};
ghost use Rattle.topic.specs.Subnet.{address_bytes, prefix_most, inside, contains_of};

use crate::same::is_same;

// The bytes of an address, and the most bits of a prefix.
pub const ADDRESS_BYTES: usize = 16;

pub const PREFIX_MOST: u8 = 128;

// Whether two bytes agree in their first `k` bits, one to seven of them.
#[tactic(auto, using(crate::proofs::Prefix::masked_alike))]
fn alike(x: u8, y: u8, k: u8) -> bool
    requires { (0 < k) × (k < 8) }
    ensures { result ≡ eqb (x / 2 ^ (8 - k)) (y / 2 ^ (8 - k)) }
{
    let mask = 255 << (8 - k);
    (x & mask) == (y & mask)
}

// Whether two addresses agree in their first `bits` bits.
fn agree(a: &[u8], net: &[u8], bits: u8) -> bool
    requires { (length a.now ≡ address_bytes) × (length net.now ≡ address_bytes) × (bits ≤ prefix_most) }
    ensures { result ≡ inside a.now net.now bits }
{
    let whole = usize::from(bits / 8);
    let rest = bits % 8;
    is_same(&a[..whole], &net[..whole]) && (rest == 0 || alike(a[whole], net[whole], rest))
}

// Whether `source` lies in the subnet of `net` and `bits`. A net that has not 16 bytes, or more than 128 bits, is no subnet
// and holds nobody.
pub fn contains(net: &[u8], bits: u8, source: &[u8; 16]) -> bool
    ensures { result ≡ contains_of net.now bits source.now }
{
    net.len() == ADDRESS_BYTES && bits <= PREFIX_MOST && agree(source, net, bits)
}
