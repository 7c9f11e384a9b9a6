// Walks along the pieces of a record: how many there are, how many bytes they have and how many are in a state, and all of them
// joined.
ghost use Rattle.std.specs.Prelude.{◌≡◌, map, suc, ◌≤◌, length};
ghost use Rattle.octets.specs.Octets.{put};
ghost use Rattle.blake3.specs.Tree.{blake3};
ghost use Rattle.machine.specs.Limits.{longest, most_cells};
ghost use Rattle.machine.specs.Counting.{occurs};
ghost use Rattle.machine.specs.Sound.{sizes};
ghost use Rattle.machine.specs.Pieces.{joined};
ghost use Rattle.soundness.specs.Places.{pieces_left};
ghost use Rattle.pieces.specs.InPlace.{piece_state};

use octets::copy_in;
use rows::message::LONGEST_BYTES;
use soundness::pieces::Pieces;

// How many pieces there are.
#[tactic(auto, using(crate::proofs::Walks::walks))]
pub fn count(pieces: Pieces<'_>) -> u64
    ensures { let all = pieces_left pieces.entry in
        (result ≡ length all) × (result ≤ suc most_cells) }
{
    pieces.count() as u64
}

// How many bytes the pieces have together.
#[tactic(auto, using(crate::proofs::Walks::walks))]
pub fn size(pieces: Pieces<'_>) -> u64
    ensures { let all = pieces_left pieces.entry in
        result ≡ sizes all }
{
    let mut sum: u64 = 0;
    for piece in pieces {
        sum += piece.size();
    }
    sum
}

// How many of the pieces have a state.
#[tactic(auto, using(crate::proofs::Walks::walks, octets::specs::BoolsLaws::one_is))]
pub fn count_state(pieces: Pieces<'_>, state: u8) -> u64
    ensures { let all = pieces_left pieces.entry in
        (result ≡ occurs state (map piece_state all)) × (result ≤ suc most_cells) }
{
    let mut found: u64 = 0;
    for piece in pieces {
        found += u64::from(piece.state() == state);
    }
    found
}

// The pieces joined in `out`; answers how many bytes they have together.
#[tactic(auto, using(crate::proofs::Walks::walks))]
pub fn join(pieces: Pieces<'_>, out: &mut [u8]) -> usize
    requires { sizes (pieces_left pieces) ≤ length out.old }
    ensures { let all = pieces_left pieces.entry in
        (result ≡ sizes all) × (out.new ≡ put out.old 0 (joined all)) }
{
    let mut at: usize = 0;
    for piece in pieces {
        let bytes = piece.bytes();
        copy_in(out, at, bytes);
        at += bytes.len();
    }
    at
}

// The sum of the pieces, joined. It is not inlined: its buffer would take 32,500 bytes of stack in each step of a packet
// and in each wake.
#[inline(never)]
pub fn sum(pieces: Pieces<'_>) -> [u8; 32]
    requires { sizes (pieces_left pieces) ≤ longest }
    ensures { let all = pieces_left pieces.entry in
        result ≡ blake3 (joined all) }
{
    let mut message = [0u8; LONGEST_BYTES];
    let n = join(pieces, &mut message);
    blake3::hash(&message[0..n])
}
