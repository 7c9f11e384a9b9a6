// What a packet does, by its kind: to the two stores, and the reply that it gets.

ghost use Rattle.std.specs.Prelude.{◌≡◌, ◌≤◌, length, is_some, IfSome};
ghost use Rattle.octets.specs.Octets.{put};
ghost use Rattle.answer.specs.Results.{answered};
ghost use Rattle.packet.specs.declared.header.Kind.{Kind};
ghost use Rattle.packet.specs.Frame.{needed};
ghost use Rattle.machine.specs.Packet.{packet_room, is_kind, kind_wake, arrival, reply_bytes};
ghost use Rattle.records.specs.HeldAt.{Receives, Sends};
ghost use Rattle.message.specs.Both.{both_of, reply_out};

use answer::Refusal;
use packet::chunk::MessageChunk;
use packet::done::MessageDone;
use packet::header::Kind;
use packet::init::MessageInit;
use packet::label::labelled;
use packet::reader::Frame;
use packet::{header, run};
use rows::record;

// The bytes of the frame that each reply keeps: up to an init's topic, up to a chunk's piece, all of a done.
const INIT_REPLY: usize = MessageInit::TOPIC;

const CHUNK_REPLY: usize = MessageChunk::PIECE;

pub const DONE_REPLY: usize = MessageDone::SIZE;

// What an accepted packet is answered with: how many bytes of its frame the reply keeps, the wake
// mark. No reply keeps 0, as `reply_bytes` says, and the mark is the answer's number.
#[derive(Clone, Copy)]
pub struct Effect {
    pub keeps: usize,
    pub wake: u64,
}

// .. by its kind; none where the packet has no kind.
#[tactic(auto, unfolding(machine::specs::Packet::kind_wake))]
pub fn effect_of(kind: Kind) -> Option<Effect>
    ensures known { is_some result ≡ is_kind kind }
    ensures value { IfSome result (λ e. (e.keeps ≡ reply_bytes kind) × (e.wake ≡ kind_wake kind)) }
{
    let effect = match kind {
        Kind::Init => Effect {
            keeps: INIT_REPLY,
            wake: 0,
        },
        Kind::Chunk => Effect {
            keeps: CHUNK_REPLY,
            wake: 0,
        },
        Kind::Done => Effect {
            keeps: DONE_REPLY,
            wake: 0,
        },
        Kind::Read | Kind::Aborted | Kind::AckDone => Effect { keeps: 0, wake: 0 },
        Kind::AckInit | Kind::AckChunk => Effect { keeps: 0, wake: 1 },
        Kind::Nothing => return None,
    };
    Some(effect)
}

// Where a packet came from, and where it was sent to.
#[derive(Clone, Copy)]
pub struct Route {
    pub from: [u8; 16],
    pub to: [u8; 16],
}

// The packet's step: its refusal, or both stores after it.
pub fn step(
    kind: Kind,
    recv: &mut [u8],
    send: &mut [u8],
    frame: Frame<'_>,
    route: Route,
    rules: &[u8],
    known: u64,
) -> Result<(), Refusal>
    requires { Receives recv.old × Sends send.old × (needed kind frame.bytes.now ≤ length frame.bytes.now) }
    ensures { let p = arrival frame.entry.bytes.now route.from route.to rules.now known in
        record { number = answered result; recv = recv.new; send = send.new }
        ≡ both_of kind p recv.old send.old }
{
    let id = frame.id();
    match kind {
        Kind::Init => {
            let from = route.from;
            let to = route.to;
            let reply = header::is_reply(frame.flags());
            let label = labelled(id, &from, &to, reply, frame.length());
            let topic = frame.topic();
            inbox::init::init(recv, label, topic, rules)
        }
        Kind::Chunk => {
            let index = frame.index();
            let offset = frame.offset();
            let piece = frame.piece();
            inbox::chunk::chunk(recv, id, index, offset, piece)
        }
        Kind::Done => {
            let count = frame.count();
            let sum = frame.sum();
            inbox::done::done(recv, id, count, sum, known)
        }
        Kind::Read => outbox::acks::advance(send, id, record::RECEIVED, record::READ),
        Kind::Aborted => inbox::aborted::abort(recv, id),
        Kind::AckInit => outbox::acks::advance(send, id, record::INIT, record::IN_PROGRESS),
        Kind::AckChunk => outbox::acks::ack_chunk(send, id, frame.index()),
        Kind::AckDone => outbox::acks::advance(send, id, record::IN_PROGRESS, record::RECEIVED),
        Kind::Nothing => Err(Refusal::NoWork),
    }
}

// The reply, from the packet's to-address to its from-address; answers how long the run is. Both are as they were lent:
// a `Route` has copies.
pub fn reply(keeps: usize, frame: &[u8], from: &[u8; 16], to: &[u8; 16], run: &mut [u8]) -> usize
    requires { ((k : Kind) × (keeps ≡ reply_bytes k))
        × (keeps ≤ length frame.now)
        × (packet_room ≤ length run.old) }
    ensures { let out = reply_out keeps frame.now from.now to.now in
        (result ≡ length out) × (run.new ≡ put run.old 0 out) }
{
    if keeps == 0 {
        return 0;
    }
    run::put_reply(run, 0, to, from, frame, keeps);
    run::PACKET + keeps
}
