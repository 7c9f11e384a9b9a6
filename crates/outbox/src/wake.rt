// The wakes: PROTOCOL, "The tablet".
ghost use Rattle.std.specs.Prelude.{◌≡◌, true, false, not, ◌||◌, ◌≤◌, length, eqb, MatchOption};
ghost use Rattle.std.proofs.Math.Option.{some};
ghost use Rattle.answer.specs.Results.{answer_of};
ghost use Rattle.machine.specs.Codes.{role_send};
ghost use Rattle.machine.specs.Layout.{decode};
ghost use Rattle.machine.specs.Refusals.{refusal};
ghost use Rattle.machine.specs.Choice.{chosen};
ghost use Rattle.machine.specs.Send.{change, with_stamps, sent_pieces, wake_out, woken};
ghost use Rattle.calendar.specs.Calendar.{well_formed};
ghost use Rattle.machine.specs.Wake.{send_wake, deadline_wake, send_wake_room, wake_room};
ghost use Rattle.machine.specs.Wake.{waking, dated, wake_tests, wake_run, wake_pieces, wake_step, wake_at};
ghost use Rattle.records.specs.HeldAt.{rec_in, key_in, HeldAt, Sends};
ghost use Rattle.outbox.specs.Kinds.{number_of};
ghost use Rattle.outbox.specs.Sending.{progress_out, Wakes};

use crate::choice::MOST;
use crate::deadline::deadline_wake;
use crate::due::{Sent, send_due};
use crate::record::Leaving;
use answer::{Done, Refusal};
use calendar::{is_open, well_formed};
use packet::chunk::MessageChunk;
use packet::{header, run};
use records::find::Store;
use rows::head;
use rows::message::CUT_BYTES;
use rows::record::{IN_PROGRESS, INIT};

// The kinds of a wake, as the C interface gives them: it may give any number.
const SEND: u64 = 1;

const DEADLINE: u64 = 2;

// What the run of a send wake takes at most, eight whole pieces, and that of a deadline wake.
const SEND_ROOM: usize = MOST * (run::PACKET + MessageChunk::PIECE + CUT_BYTES);

const DEADLINE_ROOM: usize = run::PACKET + header::SIZE;

// A kind of a wake. Its number comes from C, and a run with its length: each function here asks for the room that it needs,
// since arrays of that size would have to be made of what is lent.
#[derive(Clone, Copy)]
enum Kind {
    Send,
    Deadline,
}

impl Kind {
    // Row 20: the kind with that number, if there is one. No TryFrom: the refusal is the call's.
    fn of(kind: u64) -> Option<Kind>
        ensures { let is_kind = eqb kind send_wake || eqb kind deadline_wake in
            MatchOption result (is_kind ≡ false) (λ k. kind ≡ number_of k) }
    {
        match kind {
            SEND => Some(Kind::Send),
            DEADLINE => Some(Kind::Deadline),
            _ => None,
        }
    }

    // Row 26: whether it can go by the calendar; only a send wake looks at it.
    fn is_dated(self, calendar: &[u8]) -> bool
        ensures { result ≡ (not (eqb (number_of self) send_wake) || well_formed calendar.now) }
    {
        match self {
            Kind::Send => well_formed(calendar),
            Kind::Deadline => true,
        }
    }

    // Row 2: the room that it asks for.
    fn room(self) -> usize
        ensures { result ≡ wake_room (number_of self) }
    {
        match self {
            Kind::Send => SEND_ROOM,
            Kind::Deadline => DEADLINE_ROOM,
        }
    }
}

// A record in progress: the done once every piece is acknowledged, else the pieces whose turn it is.
#[tactic(auto, using(crate::specs::WokenLaws::progress_due))]
fn progress(send: &mut [u8], link: usize, clock: u64, run: &mut [u8]) -> Sent
    requires { HeldAt role_send send.old link × (send_wake_room ≤ length run.old) }
    ensures { let b = send.old in
        let those = chosen clock (rec_in b link).cells in
        let s = change (with_stamps clock those) (key_in b link) (decode b) in
        let sent = progress_out clock (rec_in b link) in
        Wakes s sent those run.old result.end result.pieces send.new run.new }
{
    let record = Leaving::at(send, link);
    if record.all_acked() {
        return Sent {
            end: record.put_done(run),
            pieces: 0,
        };
    }
    send_due(send, link, clock, run)
}

// What the record that the link at byte `link` leads to sends, at the start of the run.
pub fn send_wake(send: &mut [u8], link: usize, clock: u64, run: &mut [u8]) -> Sent
    requires { HeldAt role_send send.old link × (send_wake_room ≤ length run.old) }
    ensures { let b = send.old in
        let s = change (woken clock) (key_in b link) (decode b) in
        let sent = wake_out clock (rec_in b link) in
        let those = sent_pieces clock (rec_in b link) in
        Wakes s sent those run.old result.end result.pieces send.new run.new }
{
    let record = Leaving::at(send, link);
    if record.is_late() {
        return Sent::NOTHING;
    }
    match record.state() {
        INIT => Sent {
            end: record.put_init(run),
            pieces: 0,
        },
        IN_PROGRESS => progress(send, link, clock, run),
        _ => Sent::NOTHING,
    }
}

// The record that the link at byte `link` leads to is woken. Outside hours a send wake does nothing. What a
// wake is handed stays apart, as in `wake`: a struct of it would be made for this one call.
fn wake_record(
    send: &mut [u8],
    kind: Kind,
    link: usize,
    clock: u64,
    calendar: &[u8],
    unix_ms: u64,
    run: &mut [u8],
) -> Sent
    requires { let n = number_of kind in
        let w = waking n (key_in send.old link) clock calendar.now unix_ms in
        HeldAt role_send send.old link × (dated w ≡ true) × (wake_room n ≤ length run.old) }
    ensures { let b = send.old in
        let w = waking (number_of kind) (key_in b link) clock calendar.now unix_ms in
        let s = wake_step w (decode b) in
        let sent = wake_run w (some (rec_in b link)) in
        let those = wake_pieces w (some (rec_in b link)) in
        Wakes s sent those run.old result.end result.pieces send.new run.new }
{
    match kind {
        Kind::Send if is_open(calendar, unix_ms) => send_wake(send, link, clock, run),
        Kind::Send => Sent::NOTHING,
        Kind::Deadline => Sent {
            end: deadline_wake(send, link, run),
            pieces: 0,
        },
    }
}

// A wake of the record with that id: what it sends, and the store after it.
#[tactic(auto, unfolding(machine::specs::Refusals::refusal))]
pub fn wake(
    send: &mut [u8],
    kind: u64,
    id: &[u8],
    clock: u64,
    calendar: &[u8],
    unix_ms: u64,
    run: &mut [u8],
) -> Result<Done, Refusal>
    requires { Sends send.old }
    ensures { let b = send.old in
        let out = run.old in
        let w = waking kind id.now clock calendar.now unix_ms in
        record {
          answer = answer_of result;
          send = send.new;
          out = run.new;
        }
        ≡ wake_at (refusal (wake_tests w (decode b) (length out))) w b out }
{
    let Some(kind) = Kind::of(kind) else {
        return Err(Refusal::NoWork);
    };
    if !kind.is_dated(calendar) {
        return Err(Refusal::BadCalendar);
    }
    if run.len() < kind.room() {
        return Err(Refusal::ShortOutput);
    }
    let store = Store::<'_, { head::SEND }> { bytes: send };
    let Some(record) = Leaving::find(store, id) else {
        return Err(Refusal::UnknownId);
    };
    let link = record.held.row.link;
    let sent = wake_record(send, kind, link, clock, calendar, unix_ms, run);
    Ok(Done {
        run: sent.end as u64,
        wake: 0,
        pieces: sent.pieces,
    })
}
