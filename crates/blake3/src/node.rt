// The compression function on a node, which holds its five inputs.
ghost use Rattle.std.specs.Prelude.{◌≡◌};
ghost use Rattle.blake3.specs.Compression as spec;

use super::rounds;
use std::array;

// The inputs of a compression: the input chaining value, the block's words, the counter, the number of bytes in
// the block, the flags.
#[derive(Clone, Copy)]
pub struct Node {
    pub input: [u32; 8],
    pub block: [u32; 16],
    pub counter: u64,
    pub size: u32,
    pub flags: u32,
}

// The flag of the root.
const ROOT: u32 = 8;

// The output of the state v after the last round.
pub fn finish(v: [u32; 16], h: [u32; 8]) -> [u32; 16]
    ensures { result ≡ spec.finish v h }
{
    array::from_fn(|i| if i < 8 {
        v[i] ^ v[i + 8]
    } else {
        v[i] ^ h[i - 8]
    })
}

impl Node {
    // The state before the first round.
    #[tactic(auto, unfolding(crate::specs::Compression::start))]
    pub fn start(&self) -> [u32; 16]
        ensures { result ≡ spec.start self.now }
    {
        let [a, b, c, d, e, f, g, h] = self.input;
        let [p, q, r, s, ..] = rounds::IV;
        let low = (self.counter & 0xffff_ffff) as u32;
        let high = (self.counter >> 32) as u32;
        [
            a, b, c, d, e, f, g, h, p, q, r, s, low, high, self.size, self.flags,
        ]
    }

    // The sixteen words of the compression.
    #[tactic(auto, unfolding(crate::specs::Compression::compress))]
    fn compress(&self) -> [u32; 16]
        ensures { result ≡ spec.compress self.now }
    {
        finish(rounds::rounds(self.start(), self.block), self.input)
    }

    // The chaining value that a node hands to its parent.
    #[tactic(auto, unfolding(crate::specs::Compression::chaining))]
    pub fn chaining(&self) -> [u32; 8]
        ensures { result ≡ spec.chaining self.now }
    {
        let w = self.compress();
        array::from_fn(|i| w[i])
    }

    // Block i of the output, where this is the root.
    #[tactic(auto, unfolding(crate::specs::Compression::root_block))]
    pub fn root_block(&self, i: u64) -> [u32; 16]
        ensures { result ≡ spec.root_block self.now i }
    {
        let root = Node {
            counter: i,
            flags: self.flags | ROOT,
            ..*self
        };
        root.compress()
    }
}
