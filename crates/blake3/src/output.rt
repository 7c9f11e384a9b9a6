// The output of a root: its block again with counters 0, 1, 2 and so on, 64 bytes each, the last one cut.
ghost use Rattle.std.specs.Prelude.{◌≡◌, ◌*◌, length};
ghost use Rattle.blake3.specs.Compression.{root_block};
ghost use Rattle.blake3.specs.Tree.{block_len, bytes, output};

use super::node::Node;
use super::tree::BLOCK;

// The bytes of the words w.
pub fn bytes<const N: usize>(w: &[u32]) -> [u8; N]
    requires { N ≡ 4 * length w.now }
    ensures { result ≡ bytes N w.now }
{
    let mut out = [0u8; N];
    // of an array whose length is a parameter, a part is lent as a slice's only
    let all = &mut out[..];
    for (k, word) in w.iter().enumerate() {
        all[4 * k..4 * k + 4].copy_from_slice(&word.to_le_bytes());
    }
    out
}

// The bytes of block i of the output of the root n.
fn block(n: &Node, i: usize) -> [u8; BLOCK]
    ensures { result ≡ bytes block_len (root_block n.now i) }
{
    bytes(&n.root_block(i as u64))
}

// Fills `out` with the output of the root n: whole blocks, and then one that may be short.
pub fn fill(n: &Node, out: &mut [u8])
    ensures { out.new ≡ output n.now (length out.old) }
{
    let whole = out.len() / BLOCK;
    for i in 0..whole {
        octets::copy_in(out, BLOCK * i, &block(n, i));
    }
    let rest = out.len() % BLOCK;
    if rest > 0 {
        octets::copy_in(out, BLOCK * whole, &block(n, whole)[..rest]);
    }
}
