// BLAKE3: all of it, for an input of any length, with no heap. A sum has 32 bytes, or as many as the buffer that
// is lent. `rounds` mixes words, `node` is the compression function, `mode` has the modes, `tree` chunks and
// parents, `lanes` hashes four chunks at once, and `output` writes what the root gives. Tree and output are proved
// once, for any mode: the three modes are three uses of them.

#![tactic(auto)]

ghost use Rattle.std.specs.Prelude.{◌≡◌, ◌≤◌, length};
ghost use Rattle.blake3.specs.Tree.{node, sum_by, plain, blake3};
ghost use Rattle.blake3.specs.Modes.{key_len, keyed_hash, derived_key};

mod lanes;
mod mode;
mod node;
mod output;
mod rounds;
mod tree;

use mode::{KEYED, MATERIAL, Mode};

// The bytes of a key.
pub const KEY: usize = 32;

// The node over all of s. That of one block is not handed up through the tree's functions: the copies would take
// 4% of its time.
fn root(mode: &Mode, s: &[u8]) -> node::Node
    ensures { result ≡ node mode.now.key mode.now.flags s.now 0 }
{
    if s.len() <= tree::BLOCK {
        return tree::one_block(mode, s);
    }
    tree::subtree(mode, s, 0)
}

// The sum of s in a mode, of 32 bytes.
fn short(mode: &Mode, s: &[u8]) -> [u8; 32]
    ensures { result ≡ sum_by mode.now.key mode.now.flags s.now key_len }
{
    output::bytes(&root(mode, s).root_block(0)[..8])
}

// The sum of s in a mode, as long as `out`.
#[tactic(auto, unfolding(crate::specs::Tree::sum_by))]
fn sum(mode: &Mode, s: &[u8], out: &mut [u8])
    ensures { out.new ≡ sum_by mode.now.key mode.now.flags s.now (length out.old) }
{
    output::fill(&root(mode, s), out);
}

// The plain sum of s, of 32 bytes.
#[tactic(auto, unfolding(crate::specs::Tree::blake3, crate::specs::Tree::plain))]
pub fn hash(s: &[u8]) -> [u8; 32]
    ensures { result ≡ blake3 s.now }
{
    short(&Mode::PLAIN, s)
}

// The plain sum of s, as long as `out`.
#[tactic(auto, unfolding(crate::specs::Tree::plain))]
pub fn plain(s: &[u8], out: &mut [u8])
    ensures { out.new ≡ plain s.now (length out.old) }
{
    sum(&Mode::PLAIN, s, out);
}

// The keyed hash of s, as long as `out`.
#[tactic(auto, unfolding(crate::specs::Modes::keyed_hash))]
pub fn keyed_hash(key: &[u8], s: &[u8], out: &mut [u8])
    requires { key_len ≤ length key.now }
    ensures { out.new ≡ keyed_hash key.now s.now (length out.old) }
{
    sum(&Mode::keyed(key, KEYED), s, out);
}

// The key that a context and key material give, as long as `out`.
#[tactic(auto, unfolding(crate::specs::Modes::derived_key, crate::specs::Modes::context_key))]
pub fn derive_key(context: &[u8], material: &[u8], out: &mut [u8])
    ensures { out.new ≡ derived_key context.now material.now (length out.old) }
{
    let key = short(&Mode::CONTEXT, context);
    sum(&Mode::keyed(&key, MATERIAL), material, out);
}
