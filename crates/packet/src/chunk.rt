// The chunk: a piece of a message, its index and its offset.

ghost use Rattle.std.specs.Prelude.{◌≡◌, ◌+◌, ◌≤◌, length};
ghost use Rattle.octets.specs.Octets.{put};
ghost use Rattle.packet.specs.Frame.{id_size, chunk_piece_at};
ghost use Rattle.packet.specs.Outgoing.{chunk_packet};

use crate::header;

#[derive(Clone, Copy)]
pub struct MessageChunk {}

impl MessageChunk {
    pub const INDEX: usize = header::SIZE;

    pub const OFFSET: usize = Self::INDEX + 8;

    pub const LENGTH: usize = Self::OFFSET + 8;

    pub const PIECE: usize = Self::LENGTH + 8;
    // What is left of a frame of 1,400 bytes for the piece.
    pub const LARGEST: u64 = 1364;

    // A chunk packet, written at a.
    #[tactic(auto, using(crate::proofs::Writes::chunk_is))]
    pub fn put(run: &mut [u8], a: usize, id: &[u8], index: u64, offset: u64, piece: &[u8])
        requires { (length id.now ≡ id_size) × (a + chunk_piece_at + length piece.now ≤ length run.old) }
        ensures { run.new
            ≡ put run.old a (chunk_packet id.now index offset piece.now) }
    {
        header::put(run, a, id, header::FLAG_CHUNK);
        octets::write::<8>(run, a + Self::INDEX, index);
        octets::write::<8>(run, a + Self::OFFSET, offset);
        octets::write::<8>(run, a + Self::LENGTH, piece.len() as u64);
        octets::copy_in(run, a + Self::PIECE, piece);
    }
}
