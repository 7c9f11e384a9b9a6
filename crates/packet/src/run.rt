// A run: outgoing packets, each behind its byte count, its from-address and its to-address. Bytes past what
// is written stay.

#![tactic(auto, using(crate::proofs::Writes::entries))]

ghost use Rattle.std.specs.Prelude.{◌≡◌, ◌++◌, ◌+◌, ◌<◌, ◌≤◌, length};
ghost use Rattle.octets.specs.Octets.{put, be};
ghost use Rattle.packet.specs.Frame.{id_size, sum_size, after_flags_at, body_at, init_topic_at, chunk_piece_at, done_end};
ghost use Rattle.packet.specs.Outgoing.{entry, init_packet, chunk_packet, done_packet, header, reply_packet};
ghost use Rattle.packet.specs.Room.{entry_front, Room};

use crate::chunk::MessageChunk;
use crate::done::MessageDone;
use crate::header::{self, FLAGS};
use crate::init::MessageInit;
use crate::label::Label;

// Places in an entry.
pub const FROM: usize = 2;

pub const TO: usize = FROM + 16;

pub const PACKET: usize = TO + 16;

// What stands before a packet of n bytes, written at a. Both addresses are slices, here and below, since callers lend
// parts of their stores: a struct of the two would be made for each call alone.
fn put_front(run: &mut [u8], a: usize, from: &[u8], to: &[u8], n: usize)
    requires { Room run.old a from.now to.now n }
    ensures { run.new
        ≡ put run.old a (be 2 n ++ from.now ++ to.now) }
{
    octets::write::<2>(run, a, n as u64);
    octets::copy_in(run, a + FROM, from);
    octets::copy_in(run, a + TO, to);
}

// The entry of an init.
pub fn put_init(run: &mut [u8], a: usize, label: Label, topic: &[u8])
    requires { (length topic.now < 256)
        × (a + entry_front + (init_topic_at + length topic.now) ≤ length run.old) }
    ensures { let packet = init_packet label.id label.reply label.total topic.now in
        run.new ≡ put run.old a (entry label.source label.destination packet) }
{
    put_front(
        run,
        a,
        &label.source,
        &label.destination,
        MessageInit::TOPIC + topic.len(),
    );
    MessageInit::put(run, a + PACKET, &label.id, label.reply, label.total, topic);
}

// Where a piece stands in its message: its index, and its offset in bytes.
#[derive(Clone, Copy)]
pub struct Position {
    pub index: u64,
    pub offset: u64,
}

// The entry of a chunk.
pub fn put_chunk(
    run: &mut [u8],
    a: usize,
    from: &[u8],
    to: &[u8],
    id: &[u8],
    position: Position,
    piece: &[u8],
)
    requires room { Room run.old a from.now to.now (chunk_piece_at + length piece.now) }
    requires id_len { length id.now ≡ id_size }
    ensures { run.new
        ≡ put run.old a
        (entry from.now to.now
        (chunk_packet id.now position.index position.offset piece.now)) }
{
    put_front(run, a, from, to, MessageChunk::PIECE + piece.len());
    MessageChunk::put(run, a + PACKET, id, position.index, position.offset, piece);
}

// The entry of a done.
pub fn put_done(run: &mut [u8], a: usize, from: &[u8], to: &[u8], id: &[u8], count: u64, sum: &[u8])
    requires room { Room run.old a from.now to.now done_end }
    requires id_len { (length id.now ≡ id_size) × (length sum.now ≡ sum_size) }
    ensures { run.new
        ≡ put run.old a
        (entry from.now to.now (done_packet id.now count sum.now)) }
{
    put_front(run, a, from, to, MessageDone::SIZE);
    MessageDone::put(run, a + PACKET, id, count, sum);
}

// The entry of a packet that is a header alone: aborted and read.
pub fn put_header(run: &mut [u8], a: usize, from: &[u8], to: &[u8], id: &[u8], flags: u8)
    requires room { Room run.old a from.now to.now body_at }
    requires id_len { length id.now ≡ id_size }
    ensures { run.new
        ≡ put run.old a
        (entry from.now to.now (header id.now flags)) }
{
    put_front(run, a, from, to, header::SIZE);
    header::put(run, a + PACKET, id, flags);
}

// The entry of a reply: the frame's first n bytes with the ack flag set.
pub fn put_reply(run: &mut [u8], a: usize, from: &[u8], to: &[u8], frame: &[u8], n: usize)
    requires room { Room run.old a from.now to.now n }
    requires after_flags_at_le_n { (after_flags_at ≤ n) × (n ≤ length frame.now) }
    ensures { run.new
        ≡ put run.old a
        (entry from.now to.now (reply_packet n frame.now)) }
{
    put_front(run, a, from, to, n);
    octets::copy_in(run, a + PACKET, &frame[..n]);
    run[a + PACKET + FLAGS] |= header::FLAG_ACK;
}
