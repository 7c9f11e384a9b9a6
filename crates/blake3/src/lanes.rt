// Four chunks at once, one in each of four lanes: word k of lane j stands at 4 * k + j, so that the compiler keeps
// word k of all lanes in one vector register. Each step takes a lane, calls what serves a single chunk, and puts
// the lane back.
ghost use Rattle.std.specs.Prelude.{◌≡◌, ◌+◌, ◌*◌, ◌<◌, ◌≤◌, length};
ghost use Rattle.blake3.specs.Tree.{block_len, chunk_len};
ghost use Rattle.blake3.specs.Lanes.{Lanes, Each, lane, put_lane, Rounded, AllRounds, Finished};
ghost use Rattle.blake3.specs.FourChunks.{last_block, block_node, Inside, Begun, Stepped, Carried, Ended};

use super::node::{Node, finish};
use super::rounds;
use super::tree::{BLOCK, CHUNK_END, flags_at, whole_block};
use std::array;

// The number of lanes.
const LANES: usize = 4;

// The number of rounds.
const ROUNDS: usize = 7;

// The last block of a whole chunk.
const LAST: usize = 15;

// Four chunks of an input, one for each lane: where each starts, the counter of the first, and the flag bits of
// the mode.
#[derive(Clone, Copy)]
pub struct Chunks {
    pub at: [usize; 4],
    pub first: u64,
    pub mode: u32,
}

// The words of lane j.
pub fn lane<const W: usize>(v: &[u32], j: usize) -> [u32; W]
    requires { (j < 4) × Lanes W v.now }
    ensures { result ≡ lane W j v.now }
{
    array::from_fn(|k| v[LANES * k + j])
}

// Puts the words w into lane j.
#[tactic(auto, using(crate::proofs::LaneLaws::put_next), unfolding(crate::specs::Lanes::put_lane))]
pub fn put(v: &mut [u32], j: usize, w: &[u32])
    requires { (j < 4) × Lanes (length w.now) v.old }
    ensures { v.new ≡ put_lane (length w.now) j w.now v.old }
{
    for (k, word) in w.iter().enumerate() {
        v[LANES * k + j] = *word;
    }
}

// A round of each lane, and the message words of the next.
fn round(v: &mut [u32; 64], m: &mut [u32; 64])
    ensures { Rounded v.old m.old v.new m.new }
{
    for j in 0..LANES {
        let words = lane(m, j);
        let state = rounds::round(lane(v, j), words);
        put(v, j, &state);
        put(m, j, &rounds::permute(words));
    }
}

// All seven rounds of each lane.
fn rounds(v: &mut [u32; 64], m: &mut [u32; 64])
    ensures { AllRounds v.old m.old v.new }
{
    for _ in 0..ROUNDS {
        round(v, m);
    }
}

// The node of block i, which is whole, of the chunk at a, which is chunk t of the input, with h before it and the
// flags f.
fn node_at(s: &[u8], a: usize, i: usize, t: u64, f: u32, h: [u32; 8]) -> Node
    requires { a + (block_len * i + block_len) ≤ length s.now }
    ensures { result ≡ block_node s.now a i t f h }
{
    Node {
        input: h,
        block: whole_block(&s[a..], i),
        counter: t,
        size: BLOCK as u32,
        flags: f,
    }
}

// Block i of each lane before the first round: the states, and the message words.
fn begin(s: &[u8], c: Chunks, i: usize, f: u32, h: &[u32; 32]) -> ([u32; 64], [u32; 64])
    requires { Inside s.now c (block_len * i + block_len) }
    ensures { Begun s.now c i f h.now result.0 result.1 }
{
    let mut v = [0u32; 64];
    let mut m = [0u32; 64];
    for j in 0..LANES {
        let n = node_at(s, c.at[j], i, c.first + (j as u64), f, lane(h, j));
        put(&mut v, j, &n.start());
        put(&mut m, j, &n.block);
    }
    (v, m)
}

// The chaining values h from the state v after the last round.
fn end(v: &[u32; 64], h: &mut [u32; 32])
    ensures { Finished v.now h.old h.new }
{
    for j in 0..LANES {
        let w = finish(lane(v, j), lane(h, j));
        put(h, j, &w[..8]);
    }
}

// The chaining values h after block i of each lane, which is whole and has the flags f.
fn step(s: &[u8], c: Chunks, i: usize, f: u32, h: &mut [u32; 32])
    requires { Inside s.now c (block_len * i + block_len) }
    ensures { Stepped s.now c i f h.old h.new }
{
    let (mut v, mut m) = begin(s, c, i, f, h);
    rounds(&mut v, &mut m);
    end(&v, h);
}

// The chaining values h before block e of each lane, from those before block a.
pub fn blocks(s: &[u8], c: Chunks, a: usize, e: usize, h: &mut [u32; 32])
    requires { (a ≤ e) × Inside s.now c (block_len * e) }
    ensures { Carried s.now c a e h.old h.new }
{
    for i in a..e {
        step(s, c, i, flags_at(c.mode, i), h);
    }
}

// The chaining values h of each lane's chunk, which is whole, from those before block a.
pub fn whole_chunks(s: &[u8], c: Chunks, a: usize, h: &mut [u32; 32])
    requires { (a ≤ last_block) × Inside s.now c chunk_len }
    ensures { Ended s.now c a h.old h.new }
{
    blocks(s, c, a, LAST, h);
    step(s, c, LAST, c.mode | CHUNK_END, h);
}

// The key in each lane.
pub fn spread(key: [u32; 8]) -> [u32; 32]
    ensures { Each 8 result (λ j. key) }
{
    let mut h = [0u32; 32];
    for j in 0..LANES {
        put(&mut h, j, &key);
    }
    h
}
