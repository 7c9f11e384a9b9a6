// What leaves: messages that are pushed, woken and reported on.

ghost use Rattle.std.specs.Prelude.{◌≡◌};
ghost use Rattle.answer.specs.Answers.{bare};
ghost use Rattle.answer.specs.Results.{answered, answer_of};
ghost use Rattle.machine.specs.Push.{push_of};
ghost use Rattle.machine.specs.Wake.{wake_of};
ghost use Rattle.machine.specs.Report.{report_of};

use answer::{Done, Refusal};
use packet::label::labelled;
use rows::head;

// A message to be sent: its init goes into `run`. Times are in milliseconds.
pub fn push(
    send: &mut [u8],
    id: &[u8; 8],
    reply: u64,
    from: &[u8; 16],
    to: &[u8; 16],
    topic: &[u8],
    bytes: &[u8],
    created: u64,
    try_ms: u64,
    run: &mut [u8],
) -> Result<Done, Refusal>
    ensures { record {
      answer = answer_of result;
      send = send.new;
      out = run.new;
    }
        ≡ push_of send.old id.now reply from.now to.now
        topic.now bytes.now created try_ms run.old }
{
    if !soundness::store::sound(send, head::SEND) {
        return Err(Refusal::UnsoundStore);
    }
    let label = labelled(id, from, to, reply != 0, bytes.len() as u64);
    outbox::push::push(send, label, topic, bytes, created, try_ms, run)
}

// A wake of the message with that id: kind 1 sends what wants sending, within the calendar's hours, kind 2 lets
// the deadline pass. The clock is in milliseconds from any moment on, `unix_ms` in those since 1 January 1970, UTC.
pub fn wake(
    send: &mut [u8],
    kind: u64,
    id: &[u8; 8],
    clock: u64,
    calendar: &[u8],
    unix_ms: u64,
    run: &mut [u8],
) -> Result<Done, Refusal>
    ensures { record {
      answer = answer_of result;
      send = send.new;
      out = run.new;
    }
        ≡ wake_of send.old kind id.now clock calendar.now unix_ms run.old }
{
    if !soundness::store::sound(send, head::SEND) {
        return Err(Refusal::UnsoundStore);
    }
    outbox::wake::wake(send, kind, id, clock, calendar, unix_ms, run)
}

// The report on the message with that id, into `out`.
pub fn report(send: &[u8], id: &[u8; 8], out: &mut [u8]) -> Result<(), Refusal>
    ensures { record { answer = bare (answered result); out = out.new }
        ≡ report_of send.now id.now out.old }
{
    if !soundness::store::sound(send, head::SEND) {
        return Err(Refusal::UnsoundStore);
    }
    outbox::report::report(send, id, out)
}
