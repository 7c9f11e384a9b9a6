// The modes: the plain sum, the keyed hash, and the two stages of key derivation.
ghost use Rattle.std.specs.Prelude.{◌≡◌, ◌≤◌, length};
ghost use Rattle.blake3.specs.Modes.{key_len, key_words};

use super::{rounds, tree};

// A mode: the key words that each chunk and each parent starts with, and the flag bits that all its nodes have.
#[derive(Clone, Copy)]
pub struct Mode {
    pub key: [u32; 8],
    pub flags: u32,
}

// The flag bits of the keyed hash, and of the two stages of key derivation. They are numbers, since a node's flags
// are joined by or.
pub const KEYED: u32 = 16;

const CONTEXT: u32 = 32;

pub const MATERIAL: u32 = 64;

impl Mode {
    // The plain sum.
    pub const PLAIN: Mode = Mode {
        key: rounds::IV,
        flags: 0,
    };

    // The first stage of key derivation.
    pub const CONTEXT: Mode = Mode {
        key: rounds::IV,
        flags: CONTEXT,
    };

    // A mode that starts with the words of a key.
    #[tactic(auto, unfolding(crate::specs::Modes::key_words))]
    pub fn keyed(key: &[u8], flags: u32) -> Mode
        requires { key_len ≤ length key.now }
        ensures words { result.key ≡ key_words key.now }
        ensures flags { result.flags ≡ flags }
    {
        Mode {
            key: tree::words(key, 0),
            flags,
        }
    }
}
