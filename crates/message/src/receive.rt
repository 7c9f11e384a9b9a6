// What arrives: packets, and the messages that are whole.

ghost use Rattle.std.specs.Prelude.{◌≡◌};
ghost use Rattle.answer.specs.Results.{answer_of};
ghost use Rattle.machine.specs.Packet.{packet_of};
ghost use Rattle.machine.specs.Take.{take_of};

use crate::step;
use crate::step::Route;
use answer::{Done, Refusal};
use packet::reader::Frame;
use packet::{header, needed, run};
use rows::head;

// What the longest reply takes in a run.
const REPLY_ROOM: usize = run::PACKET + step::DONE_REPLY;

// A packet that came in: `frame` has the bytes received, `known` tells whether the host knows the key of the
// record's source, `rules` is the rule book, and the reply goes into `run`.
#[tactic(auto, using(crate::proofs::Packets::packets), unfolding(machine::specs::Refusals::refusal))]
pub fn packet(
    recv: &mut [u8],
    send: &mut [u8],
    frame: &[u8],
    from: &[u8; 16],
    to: &[u8; 16],
    rules: &[u8],
    known: u64,
    run: &mut [u8],
) -> Result<Done, Refusal>
    ensures { record {
      answer = answer_of result;
      recv = recv.new;
      send = send.new;
      out = run.new;
    }
        ≡ packet_of recv.old send.old frame.now from.now
        to.now rules.now known run.old }
{
    if !soundness::store::sound(recv, head::RECEIVE) {
        return Err(Refusal::UnsoundStore);
    }
    if !soundness::store::sound(send, head::SEND) {
        return Err(Refusal::UnsoundStore);
    }
    if !needed::is_frame(frame) {
        return Err(Refusal::BadFrame);
    }
    if frame.len() < header::SIZE {
        return Err(Refusal::ShortFrame);
    }
    let fields = Frame::new(frame);
    let kind = header::kind_of(fields.flags());
    if !needed::is_enough(kind, frame) {
        return Err(Refusal::ShortFrame);
    }
    let effect = step::effect_of(kind).ok_or(Refusal::NoWork)?;
    if run.len() < REPLY_ROOM {
        return Err(Refusal::ShortOutput);
    }
    let route = Route {
        from: *from,
        to: *to,
    };
    step::step(kind, recv, send, fields, route, rules, known)?;
    let length = step::reply(effect.keeps, frame, from, to, run);
    Ok(Done {
        run: length as u64,
        wake: effect.wake,
        pieces: 0,
    })
}

// The oldest whole message: its record and its data go into `taken`, its read packet into `run`, and its
// record is dropped.
pub fn take(recv: &mut [u8], taken: &mut [u8], run: &mut [u8]) -> Result<Done, Refusal>
    ensures { record {
      answer = answer_of result;
      recv = recv.new;
      taken = taken.new;
      out = run.new;
    }
        ≡ take_of recv.old taken.old run.old }
{
    if !soundness::store::sound(recv, head::RECEIVE) {
        return Err(Refusal::UnsoundStore);
    }
    inbox::take::take(recv, taken, run)
}
