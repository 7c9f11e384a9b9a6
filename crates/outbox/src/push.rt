// Push: a message starts to leave. Its data is cut by 1,300 into free cells, its record is opened, and its
// init is sent.
ghost use Rattle.std.specs.Prelude.{◌≡◌, [], ◌<◌, ◌≤◌, length, leb};
ghost use Rattle.answer.specs.Results.{answered, answer_of};
ghost use Rattle.packet.specs.Named.{Named};
ghost use Rattle.machine.specs.Limits.{longest, slots_of};
ghost use Rattle.machine.specs.Layout.{number_limit, encode, decode};
ghost use Rattle.machine.specs.Refusals.{refusal};
ghost use Rattle.machine.specs.Send.{push_step, init_out};
ghost use Rattle.machine.specs.Outcomes.{send_at};
ghost use Rattle.machine.specs.Push.{push_label, pushed, push_tests};
ghost use Rattle.records.specs.HeldAt.{Sends};
ghost use Rattle.records.specs.Opening.{new_label};
ghost use Rattle.outbox.specs.Pushing.{Pushable, first_place, pushes, pushed_into};

use answer::{Done, Refusal};
use packet::init::MessageInit;
use packet::label::Label;
use packet::run;
use pieces::walk;
use records::find::Store;
use records::open::Times;
use rows::head::{Head, SEND};
use rows::message;

// The most bytes of a topic.
const LARGEST_TOPIC: usize = 255;

// What the run of a push takes at most.
const ROOM: usize = run::PACKET + MessageInit::TOPIC + LARGEST_TOPIC;

// Row 12: whether there are as many free cells as the message has pieces.
fn has_cells(store: Store<'_, SEND>, size: usize) -> bool
    requires { size ≤ longest }
    ensures { let b = store.entry.bytes.now in
        result ≡ leb (slots_of size) (length (decode b).free_cells) }
{
    message::slots(size as u64) <= walk::count(store.free_cells())
}

// Rows 2, 21, 6, 24, 22, 7 and 12: the refusal of a push with room for its run.
#[tactic(auto, unfolding(machine::specs::Refusals::refusal, octets::specs::Octets::capacity))]
fn refusal(
    store: Store<'_, SEND>,
    id: &[u8],
    topic: &[u8],
    bytes: &[u8],
    created: u64,
    try_ms: u64,
    room: usize,
) -> Result<(), Refusal>
    ensures { let p = pushed id.now 0 [] [] topic.now bytes.now created try_ms in
        answered result ≡ refusal (push_tests p (decode store.entry.bytes.now) room) }
{
    if room < ROOM {
        return Err(Refusal::ShortOutput);
    }
    if topic.len() > LARGEST_TOPIC {
        return Err(Refusal::TopicTooLarge);
    }
    if bytes.len() > message::LONGEST_BYTES {
        return Err(Refusal::TooLong);
    }
    if created.checked_add(try_ms).is_none() {
        return Err(Refusal::Clock);
    }
    if store.is_held(id) {
        return Err(Refusal::IdInUse);
    }
    if !store.is_free() {
        return Err(Refusal::NoRecord);
    }
    if !has_cells(store, bytes.len()) {
        return Err(Refusal::NoCell);
    }
    Ok(())
}

// The place of the first piece of a message: the first free cell, if it has pieces.
#[tactic(auto, using(records::specs::ReadableLaws::reads))]
fn first_place(store: Store<'_, SEND>, size: usize) -> Option<u8>
    ensures { result ≡ first_place store.entry.bytes.now size }
{
    (size > 0).then_some(store.bytes[Head::FREE_CELLS])
}

// A push that is not refused: the pieces of the message are cut, and its record is held.
#[tactic(auto, using(crate::specs::PushedLaws::push_opened))]
fn hold(send: &mut [u8], label: Label, topic: &[u8], bytes: &[u8], times: Times)
    requires pushable { Pushable send.old (new_label label topic.now) bytes.now }
    requires created_lt_number_limit { (times.created < number_limit) × (times.end < number_limit) }
    ensures { let h = new_label label topic.now in
        let s = decode send.old in
        send.new ≡ encode (push_step h times.created times.end bytes.now s) }
{
    let store = Store::<'_, SEND> { bytes: send };
    // A link of 0 leads nowhere.
    let cell = first_place(store, bytes.len()).unwrap_or(0);
    pieces::cut::cut(send, bytes);
    records::open::open_leaving(send, cell, label, topic, times);
}

// The message starts to leave: the store with its record, and its init in the run.
#[tactic(auto, using(crate::proofs::Pushes::pushing), unfolding(machine::specs::Refusals::refusal))]
pub fn push(
    send: &mut [u8],
    label: Label,
    topic: &[u8],
    bytes: &[u8],
    created: u64,
    try_ms: u64,
    run: &mut [u8],
) -> Result<Done, Refusal>
    requires { Sends send.old × Named label × (label.total ≡ length bytes.now) }
    ensures { let b = send.old in
        let o = run.old in
        let p = pushes label topic.now bytes.now created try_ms in
        record { answer = answer_of result; send = send.new; out = run.new }
        ≡ send_at (refusal (push_tests p (decode b) (length o))) (pushed_into p (decode b))
        (init_out (push_label p)) 0 b o }
{
    let id = label.id;
    let store = Store::<'_, SEND> { bytes: send };
    refusal(store, &id, topic, bytes, created, try_ms, run.len())?;
    let times = Times {
        created,
        end: created + try_ms,
    };
    hold(send, label, topic, bytes, times);
    run::put_init(run, 0, label, topic);
    let end = run::PACKET + MessageInit::TOPIC + topic.len();
    Ok(Done {
        run: end as u64,
        ..Done::NOTHING
    })
}
