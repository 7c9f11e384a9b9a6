// BLAKE3's constants, its mixing function and its rounds, on a state and a message block of sixteen words each.
ghost use Rattle.std.specs.Prelude.{◌≡◌, ◌<◌};
ghost use Rattle.blake3.specs.Rounds as spec;
ghost use Rattle.blake3.specs.SideBySide as side;

use std::array;

// The starting words.
pub const IV: [u32; 8] = [
    0x6a09e667, 0xbb67ae85, 0x3c6ef372, 0xa54ff53a, 0x510e527f, 0x9b05688c, 0x1f83d9ab, 0x5be0cd19,
];

// The places that the message words of the next round come from.
const PLACES: [usize; 16] = [2, 6, 3, 10, 7, 0, 4, 13, 1, 11, 12, 5, 9, 14, 15, 8];

// Half of G, on four words, with the message word x and rotations by p and q.
fn half(v: [u32; 4], x: u32, p: u32, q: u32) -> [u32; 4]
    requires { (0 < p) × (p < 32) × (0 < q) × (q < 32) }
    ensures { result ≡ spec.half v x p q }
{
    let a = v[0].wrapping_add(v[1]).wrapping_add(x);
    let d = (v[3] ^ a).rotate_right(p);
    let c = v[2].wrapping_add(d);
    let b = (v[1] ^ c).rotate_right(q);
    [a, b, c, d]
}

// G, on four words, with the message words x and y.
#[tactic(auto, unfolding(crate::specs::Rounds::mix))]
fn mix(v: [u32; 4], x: u32, y: u32) -> [u32; 4]
    ensures { result ≡ spec.mix v x y }
{
    half(half(v, x, 16, 12), y, 8, 7)
}

// G on the columns of s.
#[tactic(auto, unfolding(crate::specs::SideBySide::columns, crate::specs::SideBySide::upright))]
fn columns(s: [u32; 16], m: [u32; 16]) -> [u32; 16]
    ensures { result ≡ side.columns s m }
{
    let a = mix([s[0], s[4], s[8], s[12]], m[0], m[1]);
    let b = mix([s[1], s[5], s[9], s[13]], m[2], m[3]);
    let c = mix([s[2], s[6], s[10], s[14]], m[4], m[5]);
    let d = mix([s[3], s[7], s[11], s[15]], m[6], m[7]);
    [
        a[0], b[0], c[0], d[0], a[1], b[1], c[1], d[1], a[2], b[2], c[2], d[2], a[3], b[3], c[3],
        d[3],
    ]
}

// G on the diagonals of s. As one function with `columns` it would go by tables of places, which are no plainer.
#[tactic(auto, unfolding(crate::specs::SideBySide::diagonals, crate::specs::SideBySide::slanted))]
fn diagonals(s: [u32; 16], m: [u32; 16]) -> [u32; 16]
    ensures { result ≡ side.diagonals s m }
{
    let a = mix([s[0], s[5], s[10], s[15]], m[8], m[9]);
    let b = mix([s[1], s[6], s[11], s[12]], m[10], m[11]);
    let c = mix([s[2], s[7], s[8], s[13]], m[12], m[13]);
    let d = mix([s[3], s[4], s[9], s[14]], m[14], m[15]);
    [
        a[0], b[0], c[0], d[0], d[1], a[1], b[1], c[1], c[2], d[2], a[2], b[2], b[3], c[3], d[3],
        a[3],
    ]
}

// A round: the columns and then the diagonals. By `round_is`, in specs/RoundLaws, these are the specification's
// eight steps. It is put into its callers: a call would move the state through memory, and take half as long again.
#[tactic(auto, using(crate::specs::RoundLaws::round_is))]
#[inline(always)]
pub fn round(s: [u32; 16], m: [u32; 16]) -> [u32; 16]
    ensures { result ≡ spec.round s m }
{
    diagonals(columns(s, m), m)
}

// The message words of the next round.
pub fn permute(m: [u32; 16]) -> [u32; 16]
    ensures { result ≡ spec.permute m }
{
    array::from_fn(|i| m[PLACES[i]])
}

// All seven rounds. They are written out: a loop would keep the state in memory, and take a fifth longer.
pub fn rounds(s: [u32; 16], m: [u32; 16]) -> [u32; 16]
    ensures { result ≡ spec.rounds 7 s m }
{
    let s = round(s, m);
    let m = permute(m);
    let s = round(s, m);
    let m = permute(m);
    let s = round(s, m);
    let m = permute(m);
    let s = round(s, m);
    let m = permute(m);
    let s = round(s, m);
    let m = permute(m);
    let s = round(s, m);
    let m = permute(m);
    round(s, m)
}
