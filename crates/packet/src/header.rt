// The header of a packet: id, flags, and the kind that the flags decide.

ghost use Rattle.std.specs.Prelude.{◌≡◌, ◌+◌, ◌≤◌, length};
ghost use Rattle.octets.specs.Octets.{put};
ghost use Rattle.packet.specs.Frame.{has, kind_of, sent_kind, ack_kind, reply_flag};
ghost use Rattle.packet.specs.Frame.{id_size, body_at};
ghost use Rattle.packet.specs.Outgoing.{header};

// Bytes of the id, the place of the flag byte behind it, and that of the bytes behind that.
pub const ID_SIZE: usize = 8;

pub const FLAGS: usize = ID_SIZE;

pub const REST: usize = FLAGS + 1;
// Bytes of the header; the body starts behind it.
pub const SIZE: usize = FLAGS + 4;

pub const FLAG_INIT: u8 = 0x80;

pub const FLAG_DONE: u8 = 0x40;

pub const FLAG_ABORTED: u8 = 0x20;

pub const FLAG_CHUNK: u8 = 0x10;

pub const FLAG_READ: u8 = 0x08;

pub const FLAG_REPLY: u8 = 0x04;

pub const FLAG_ACK: u8 = 0x01;

// What a packet is: one of the five kinds, an acknowledgement of one of the first three, or nothing known.
#[derive(Clone, Copy, Debug, PartialEq, Eq)]
pub enum Kind {
    Init,
    Chunk,
    Done,
    Read,
    Aborted,
    AckInit,
    AckChunk,
    AckDone,
    Nothing,
}

// The kinds of packets by their flags, and of acknowledgements: the first flag that fits decides.
const SENT: [(u8, Kind); 5] = [
    (FLAG_INIT, Kind::Init),
    (FLAG_CHUNK, Kind::Chunk),
    (FLAG_DONE, Kind::Done),
    (FLAG_READ, Kind::Read),
    (FLAG_ABORTED, Kind::Aborted),
];

const ACKS: [(u8, Kind); 3] = [
    (FLAG_INIT, Kind::AckInit),
    (FLAG_CHUNK, Kind::AckChunk),
    (FLAG_DONE, Kind::AckDone),
];

// The kind that a flag byte decides.
pub fn kind_of(flags: u8) -> Kind
    ensures { result ≡ kind_of flags }
{
    let kinds: &[(u8, Kind)] = if flags & FLAG_ACK != 0 { &ACKS } else { &SENT };
    kinds
        .iter()
        .find(|(mask, _)| flags & mask != 0)
        .map_or(Kind::Nothing, |(_, kind)| *kind)
}

// Whether the reply flag is set.
pub fn is_reply(flags: u8) -> bool
    ensures { result ≡ has flags reply_flag }
{
    flags & FLAG_REPLY != 0
}

// A header, written at a.
#[tactic(auto, using(crate::proofs::Writes::header_is))]
pub fn put(run: &mut [u8], a: usize, id: &[u8], flags: u8)
    requires { (length id.now ≡ id_size) × (a + body_at ≤ length run.old) }
    ensures { run.new ≡ put run.old a (header id.now flags) }
{
    octets::copy_in(run, a, id);
    octets::copy_in(run, a + FLAGS, &[flags, 0, 0, 0]);
}
