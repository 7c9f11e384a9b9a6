// The reader of a frame: it holds the bytes that came, and each method reads one field of them. A method asks that
// its field came, and promises nothing else.

ghost use Rattle.std.specs.Prelude.{◌≡◌, ◌+◌, ◌<◌, ◌≤◌, length};
ghost use Rattle.octets.specs.Octets.{part};
ghost use Rattle.packet.specs.Frame.{id_of, flags_of, init_length, init_topic_size, init_topic, done_count, done_sum};
ghost use Rattle.packet.specs.Frame.{chunk_index, chunk_offset, chunk_size_field, chunk_size, piece, largest_piece};
ghost use Rattle.packet.specs.Frame.{id_size, after_flags_at, init_topic_size_at, init_topic_at, done_sum_at, done_end};
ghost use Rattle.packet.specs.Frame.{chunk_offset_at, chunk_size_at, chunk_piece_at};
ghost use Rattle.packet.specs.Frame.{needed, number};
ghost use Rattle.packet.specs.declared.header.Kind.TheVariants.{Init, Chunk};

use crate::chunk::MessageChunk;
use crate::done::MessageDone;
use crate::header::{FLAGS, ID_SIZE};
use crate::init::MessageInit;

#[derive(Clone, Copy)]
pub struct Frame<'a> {
    pub bytes: &'a [u8],
}

#[tactic(auto, unfolding(octets::specs::Octets::part))]
impl<'a> Frame<'a> {
    // The reader of these bytes.
    pub fn new(bytes: &'a [u8]) -> Frame<'a>
        ensures { result.bytes ≡ bytes.entry }
    {
        Frame { bytes }
    }

    // The id, as that part of the frame.
    pub fn id(self) -> &'a [u8]
        requires { id_size ≤ length self.bytes.now }
        ensures { result.now ≡ id_of self.entry.bytes.now }
    {
        &self.bytes[..ID_SIZE]
    }

    // The flag byte.
    #[tactic(auto, unfolding(octets::specs::Octets::part, octets::specs::Octets::num))]
    pub fn flags(self) -> u8
        requires { after_flags_at ≤ length self.bytes.now }
        ensures { result ≡ flags_of self.entry.bytes.now }
    {
        self.bytes[FLAGS]
    }

    // The number of eight bytes at a.
    #[tactic(auto, using(octets::specs::PartsLaws::length_part))]
    fn number(self, a: usize) -> u64
        requires { a + 8 ≤ length self.bytes.now }
        ensures { result ≡ number (part self.entry.bytes.now a 8) }
    {
        octets::read::<8>(self.bytes, a)
    }

    // The message's length in an init.
    pub fn length(self) -> u64
        requires { init_topic_size_at ≤ length self.bytes.now }
        ensures { result ≡ init_length self.entry.bytes.now }
    {
        self.number(MessageInit::LENGTH)
    }

    // The size of the topic of an init.
    #[tactic(auto, unfolding(octets::specs::Octets::part, octets::specs::Octets::num))]
    pub fn topic_size(self) -> usize
        requires { init_topic_at ≤ length self.bytes.now }
        ensures { (result ≡ init_topic_size self.entry.bytes.now) × (result < 256) }
    {
        usize::from(self.bytes[MessageInit::TOPIC_LENGTH])
    }

    // The topic of an init, as that part of the frame.
    pub fn topic(self) -> &'a [u8]
        requires { needed Init self.bytes.now ≤ length self.bytes.now }
        ensures { (result.now ≡ init_topic self.entry.bytes.now) × (length result.now < 256) }
    {
        &self.bytes[MessageInit::TOPIC..MessageInit::TOPIC + self.topic_size()]
    }

    // The index of a chunk's piece.
    pub fn index(self) -> u64
        requires { chunk_offset_at ≤ length self.bytes.now }
        ensures { result ≡ chunk_index self.entry.bytes.now }
    {
        self.number(MessageChunk::INDEX)
    }

    // Where a chunk's piece stands in the message.
    pub fn offset(self) -> u64
        requires { chunk_size_at ≤ length self.bytes.now }
        ensures { result ≡ chunk_offset self.entry.bytes.now }
    {
        self.number(MessageChunk::OFFSET)
    }

    // The size field of a chunk.
    pub fn size_field(self) -> u64
        requires { chunk_piece_at ≤ length self.bytes.now }
        ensures { result ≡ chunk_size_field self.entry.bytes.now }
    {
        self.number(MessageChunk::LENGTH)
    }

    // The size of a chunk's piece: the field, or what fits into a frame if that is less.
    pub fn size(self) -> usize
        requires { chunk_piece_at ≤ length self.bytes.now }
        ensures { (result ≡ chunk_size self.entry.bytes.now) × (result ≤ largest_piece) }
    {
        self.size_field().min(MessageChunk::LARGEST) as usize
    }

    // The piece of a chunk, as that part of the frame.
    pub fn piece(self) -> &'a [u8]
        requires { needed Chunk self.bytes.now ≤ length self.bytes.now }
        ensures { result.now ≡ piece self.entry.bytes.now }
    {
        &self.bytes[MessageChunk::PIECE..MessageChunk::PIECE + self.size()]
    }

    // The number of pieces in a done.
    pub fn count(self) -> u64
        requires { done_sum_at ≤ length self.bytes.now }
        ensures { result ≡ done_count self.entry.bytes.now }
    {
        self.number(MessageDone::COUNT)
    }

    // The sum in a done, as that part of the frame.
    pub fn sum(self) -> &'a [u8]
        requires { done_end ≤ length self.bytes.now }
        ensures { result.now ≡ done_sum self.entry.bytes.now }
    {
        &self.bytes[MessageDone::SUM..MessageDone::SIZE]
    }
}
