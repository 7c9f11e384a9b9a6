// Chunks, parents, and the tree of them, in any mode.
ghost use Rattle.std.specs.Prelude.{◌≡◌, ◌+◌, ◌*◌, ◌^◌, ◌<◌, ◌≤◌, length, get_or};
ghost use Rattle.blake3.specs.Words.{table};
ghost use Rattle.blake3.specs.Tree.{block_len, chunk_len, word_at, block_at, flags_at, chunk_node, parent_node, node};
ghost use Rattle.blake3.specs.Split.{Left};
ghost use Rattle.blake3.specs.Lanes.{Each};
ghost use Rattle.blake3.specs.FourChunks.{end_node, Four, value_at};

use super::lanes;
use super::lanes::Chunks;
use super::mode::Mode;
use super::node::Node;
use std::array;

// The bytes of a block, and of one to four chunks.
pub const BLOCK: usize = 64;

const CHUNK: usize = 1024;

const TWO_CHUNKS: usize = 2 * CHUNK;

const THREE_CHUNKS: usize = 3 * CHUNK;

const FOUR_CHUNKS: usize = 4 * CHUNK;

// The flags of a chunk's first block, of its last block, and of a parent.
const CHUNK_START: u32 = 1;

pub const CHUNK_END: u32 = 2;

const PARENT: u32 = 4;

// The byte at p, and 0 past the end.
fn byte_at(s: &[u8], p: usize) -> u8
    ensures { result ≡ get_or s.now p 0 }
{
    s.get(p).copied().unwrap_or(0)
}

// The word at p, which lies in s, its lowest byte first.
#[tactic(auto, unfolding(crate::specs::Tree::word_at))]
fn word_in(s: &[u8], p: usize) -> u32
    requires { p + 4 ≤ length s.now }
    ensures { result ≡ word_at s.now p }
{
    u32::from_le_bytes([s[p], s[p + 1], s[p + 2], s[p + 3]])
}

// The words from p on, which lie in s.
pub fn words<const N: usize>(s: &[u8], p: usize) -> [u32; N]
    requires { p + 4 * N ≤ length s.now }
    ensures { result ≡ table (λ k. word_at s.now (p + 4 * k)) 0 N }
{
    array::from_fn(|k| word_in(s, p + 4 * k))
}

// The sixteen words of block i, which lies in s. With no test in it, this is compiled to four vector loads.
#[tactic(auto, unfolding(crate::specs::Tree::block_at))]
pub fn whole_block(s: &[u8], i: usize) -> [u32; 16]
    requires { block_len * i + block_len ≤ length s.now }
    ensures { result ≡ block_at s.now i }
{
    words(s, BLOCK * i)
}

// The sixteen words of block i, which may be cut: bytes past the end are 0.
fn block_at(s: &[u8], i: usize) -> [u32; 16]
    requires { block_len * i ≤ length s.now }
    ensures { result ≡ block_at s.now i }
{
    let at = BLOCK * i;
    if BLOCK <= s.len() - at {
        return whole_block(s, i);
    }
    // byte by byte: to copy what there is would be a call of the C library's `memcpy`
    let padded: [u8; BLOCK] = array::from_fn(|k| byte_at(s, at + k));
    whole_block(&padded, 0)
}

// The flags of block i of a chunk, but for the last block's. `flags` are those of the mode.
#[tactic(auto, unfolding(crate::specs::Tree::flags_at))]
pub fn flags_at(flags: u32, i: usize) -> u32
    ensures { result ≡ flags_at flags i }
{
    if i == 0 { flags | CHUNK_START } else { flags }
}

// The node of block i, the last one of the chunk s, which is chunk t of the input, with h before it.
fn last_node(flags: u32, s: &[u8], t: u64, i: usize, h: [u32; 8]) -> Node
    requires { (block_len * i ≤ length s.now) × (length s.now ≤ chunk_len) }
    ensures { result ≡ end_node flags s.now t i h }
{
    Node {
        input: h,
        block: block_at(s, i),
        counter: t,
        size: (s.len() - BLOCK * i) as u32,
        flags: flags_at(flags, i) | CHUNK_END,
    }
}

// The node over s, where that is one block.
pub fn one_block(mode: &Mode, s: &[u8]) -> Node
    requires { length s.now ≤ block_len }
    ensures { result ≡ node mode.now.key mode.now.flags s.now 0 }
{
    last_node(mode.flags, s, 0, 0, mode.key)
}

// The node of the chunk s, which is chunk t of the input. It stands apart, as `four_chunks` does: within `subtree` it would take
// its stack at each level of the tree.
#[inline(never)]
#[tactic(auto, unfolding(crate::specs::Tree::before, crate::specs::Tree::chunk_node, crate::specs::Tree::last_node))]
fn chunk_node(mode: &Mode, s: &[u8], t: u64) -> Node
    requires { length s.now ≤ chunk_len }
    ensures { result ≡ chunk_node mode.now.key mode.now.flags s.now t }
{
    let last = s.len().saturating_sub(1) / BLOCK;
    let mut h = mode.key;
    for i in 0..last {
        let n = Node {
            input: h,
            block: whole_block(s, i),
            counter: t,
            size: BLOCK as u32,
            flags: flags_at(mode.flags, i),
        };
        h = n.chaining();
    }
    last_node(mode.flags, s, t, last, h)
}

// The parent of two nodes with the chaining values l and r.
fn parent_node(mode: &Mode, l: [u32; 8], r: [u32; 8]) -> Node
    ensures { result ≡ parent_node mode.now.key mode.now.flags l r }
{
    Node {
        input: mode.key,
        block: array::from_fn(|i| if i < 8 { l[i] } else { r[i - 8] }),
        counter: 0,
        size: BLOCK as u32,
        flags: mode.flags | PARENT,
    }
}

// The chaining values of the chunks of s, three whole ones and a last one, each in its lane.
fn chunk_values(mode: &Mode, s: &[u8], t: u64) -> [u32; 32]
    requires { Four s.now t }
    ensures { Each 8 result (λ j. value_at mode.now.key mode.now.flags s.now t j) }
{
    let n = s.len();
    let c = Chunks {
        at: [0, CHUNK, TWO_CHUNKS, THREE_CHUNKS],
        first: t,
        mode: mode.flags,
    };
    let mut h = lanes::spread(mode.key);
    if n == FOUR_CHUNKS {
        lanes::whole_chunks(s, c, 0, &mut h);
        return h;
    }
    // as far as the last chunk goes, but for its last block; then lane 3 is idle, and the others go to their ends
    let b = (n - THREE_CHUNKS - 1) / BLOCK;
    lanes::blocks(s, c, 0, b, &mut h);
    let w = lanes::lane(&h, 3);
    let d = Chunks {
        at: [0, CHUNK, TWO_CHUNKS, TWO_CHUNKS],
        ..c
    };
    lanes::whole_chunks(s, d, b, &mut h);
    let last = last_node(mode.flags, &s[THREE_CHUNKS..], t + 3, b, w).chaining();
    lanes::put(&mut h, 3, &last);
    h
}

// The node over s, which is three whole chunks and a last one.
#[inline(never)]
fn four_chunks(mode: &Mode, s: &[u8], t: u64) -> Node
    requires { Four s.now t }
    ensures { result ≡ node mode.now.key mode.now.flags s.now t }
{
    let h = chunk_values(mode, s, t);
    let l = parent_node(mode, lanes::lane(&h, 0), lanes::lane(&h, 1)).chaining();
    let r = parent_node(mode, lanes::lane(&h, 2), lanes::lane(&h, 3)).chaining();
    parent_node(mode, l, r)
}

// The bytes of the left part of n bytes: the largest power of two of chunks below n.
fn left(n: usize) -> usize
    requires { chunk_len < n }
    ensures { Left n result }
{
    CHUNK << ((n - 1) / CHUNK).ilog2()
}

// The node over s, whose first chunk is chunk t of the input.
pub fn subtree(mode: &Mode, s: &[u8], t: u64) -> Node
    requires { t + length s.now < 2 ^ 64 }
    ensures { result ≡ node mode.now.key mode.now.flags s.now t }
{
    let n = s.len();
    if n <= CHUNK {
        return chunk_node(mode, s, t);
    }
    // three whole chunks and a last one
    if (n - 1) / CHUNK == 3 {
        return four_chunks(mode, s, t);
    }
    let p = left(n);
    let l = subtree(mode, &s[..p], t).chaining();
    let r = subtree(mode, &s[p..], t + (p / CHUNK) as u64).chaining();
    parent_node(mode, l, r)
}
