// A new record: the first free one becomes the first held.

ghost use Rattle.std.specs.Prelude.{◌≡◌, ◌+◌, ◌≤◌, length};
ghost use Rattle.std.proofs.Math.Option.{none};
ghost use Rattle.octets.specs.Octets.{put};
ghost use Rattle.machine.specs.Limits.{longest, largest_topic, rec_bytes, slots_of};
ghost use Rattle.machine.specs.Codes.{kind_leaving};
ghost use Rattle.machine.specs.Layout.{total_at, encode, decode};
ghost use Rattle.machine.specs.Receive.{init_at};
ghost use Rattle.records.specs.Opening.{Openable, opened, new_label, FieldsFit, front_of, rest_of, new_row, opened_row, Ready};

use crate::row;
use crate::row::Row;
use packet::label::Label;
use rows::head::Head;
use rows::record;
use rows::record::Record;

// The first free record, in which all but its link is written, becomes the first held.
#[tactic(auto, using(crate::proofs::Opens::written))]
pub fn hold(store: &mut [u8])
    requires { Openable store.old }
    ensures { store.new ≡ opened store.old }
{
    let first = store[Head::FREE];
    let row = Row {
        store,
        link: Head::FREE,
    }
    .start();
    let link = [store[Head::HELD]];
    let heads = [store[row], first];
    octets::copy_in(store, row, &link);
    octets::copy_in(store, Head::FREE, &heads);
}

// The slots of a message of that length.
fn slots(total: u64) -> u8
    requires { total ≤ longest }
    ensures { result ≡ slots_of total }
{
    rows::message::slots(total) as u8
}

// The start of a new record, from its kind to its destination; cell is the link to its first cell. A label and its topic
// stay two parameters here and above: what is asked of both differs (FieldsFit, LabelSized, LabelFine), and the kind is the
// row's byte.
fn put_front(store: &mut [u8], row: usize, kind: u8, cell: u8, label: Label, topic: &[u8])
    requires { FieldsFit (new_label label topic.now) × (row + rec_bytes ≤ length store.old) }
    ensures { let h = new_label label topic.now in
        store.new ≡ put store.old (row + 1) (front_of kind cell h) }
{
    let id = label.id;
    let source = label.source;
    let destination = label.destination;
    let front = [
        kind,
        u8::from(label.reply),
        0,
        0,
        cell,
        topic.len() as u8,
        slots(label.total),
    ];
    octets::copy_in(store, row + 1, &front);
    octets::copy_in(store, row + Record::ID, &id);
    octets::copy_in(store, row + Record::SOURCE, &source);
    octets::copy_in(store, row + Record::DESTINATION, &destination);
}

// What follows, from its length on; what follows the topic is zero.
#[tactic(auto, using(crate::proofs::Opens::written))]
fn put_rest(store: &mut [u8], row: usize, total: u64, created: u64, end: u64, topic: &[u8])
    requires { (length topic.now ≤ largest_topic) × (row + rec_bytes ≤ length store.old) }
    ensures { store.new ≡ put store.old (row + total_at) (rest_of total created end topic.now) }
{
    let size = topic.len();
    octets::write::<8>(store, row + Record::LENGTH, total);
    octets::write::<8>(store, row + Record::CREATED, created);
    octets::write::<8>(store, row + Record::END, end);
    octets::copy_in(store, row + Record::TOPIC, topic);
    octets::fill(
        store,
        row + Record::TOPIC + size,
        record::BYTES - Record::TOPIC - size,
        0,
    );
}

// When a message was created and when its time is over, in milliseconds; both 0 of one that arrives.
#[derive(Clone, Copy)]
pub struct Times {
    pub created: u64,
    pub end: u64,
}

// The row of a new record, all but its link.
#[tactic(auto, using(crate::specs::OpenedLaws::opens))]
pub fn put_row(
    store: &mut [u8],
    row: usize,
    kind: u8,
    cell: u8,
    label: Label,
    topic: &[u8],
    times: Times,
)
    requires { FieldsFit (new_label label topic.now) × (row + rec_bytes ≤ length store.old) }
    ensures { let new = new_row kind cell (new_label label topic.now) times.created times.end in
        store.new ≡ put store.old (row + 1) new }
{
    let total = label.total;
    put_front(store, row, kind, cell, label, topic);
    put_rest(store, row, total, times.created, times.end, topic);
}

// The row is written into the first free record, which becomes the first held.
#[tactic(auto, using(crate::specs::OpenedLaws::opens))]
fn open_row(store: &mut [u8], kind: u8, cell: u8, label: Label, topic: &[u8], times: Times)
    requires { Openable store.old × FieldsFit (new_label label topic.now) }
    ensures { let h = new_label label topic.now in
        store.new ≡ opened_row kind cell h times.created times.end store.old }
{
    let row = Row {
        store,
        link: Head::FREE,
    }
    .start();
    put_row(store, row, kind, cell, label, topic, times);
    hold(store);
}

// A record that arrives, without pieces, is opened.
#[tactic(auto, using(crate::specs::OpenedLaws::opens))]
pub fn open_arriving(store: &mut [u8], label: Label, topic: &[u8])
    requires { Ready store.old (new_label label topic.now) }
    ensures { let h = new_label label topic.now in
        store.new ≡ encode (init_at none h (decode store.old)) }
{
    let times = Times { created: 0, end: 0 };
    open_row(store, row::ARRIVING, 0, label, topic, times);
}

// A record that leaves is opened; cell is the link to its first cell.
pub fn open_leaving(store: &mut [u8], cell: u8, label: Label, topic: &[u8], times: Times)
    requires { Openable store.old × FieldsFit (new_label label topic.now) }
    ensures { let h = new_label label topic.now in
        store.new ≡ opened_row kind_leaving cell h times.created times.end store.old }
{
    open_row(store, row::LEAVING, cell, label, topic, times);
}
