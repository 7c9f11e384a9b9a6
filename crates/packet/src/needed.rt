// Whether a frame has a length that frames have, and whether all came that its kind needs.

ghost use Rattle.std.specs.Prelude.{◌≡◌};
ghost use Rattle.packet.specs.Frame.{is_frame, is_enough};

use crate::chunk::MessageChunk;
use crate::done::MessageDone;
use crate::header::{Kind, SIZE};
use crate::init::MessageInit;
use crate::reader::Frame;

// The bytes of the largest frame.
const LARGEST: usize = 1400;

// Whether these are 1 to 1,400 bytes.
pub fn is_frame(frame: &[u8]) -> bool
    ensures { result ≡ is_frame frame.now }
{
    (1..=LARGEST).contains(&frame.len())
}

// Whether all came that a packet of this kind needs. A size that the frame tells is compared with what is left of the
// frame, so that none is too large to add.
pub fn is_enough(kind: Kind, frame: &[u8]) -> bool
    ensures { result ≡ is_enough kind frame.now }
{
    let len = frame.len();
    match kind {
        Kind::Init => len >= MessageInit::TOPIC
            && Frame::new(frame).topic_size() <= len - MessageInit::TOPIC,
        Kind::Chunk => len >= MessageChunk::PIECE
            && Frame::new(frame).size_field() <= (len - MessageChunk::PIECE) as u64,
        Kind::AckChunk => len >= MessageChunk::PIECE,
        Kind::Done => len >= MessageDone::SIZE,
        Kind::Read | Kind::Aborted | Kind::AckInit | Kind::AckDone | Kind::Nothing => len >= SIZE,
    }
}
