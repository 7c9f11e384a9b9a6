// A record is dropped: it leaves its chain, and its row and its cells are freed.

ghost use Rattle.std.specs.Prelude.{◌≡◌, ℕ, ◌≤◌, length};
ghost use Rattle.machine.specs.Limits.{rec_count, store_bytes};
ghost use Rattle.machine.specs.Layout.{encode, decode};
ghost use Rattle.machine.specs.Receive.{drop_step, take_step};
ghost use Rattle.records.specs.HeldAt.{key_in, HeldAt};
ghost use Rattle.records.specs.Dropping.{Takable};
ghost use Rattle.records.specs.Releasing.{rec_free, released, unlinked, Releasable, Droppable};

use crate::clear;
use rows::head::Head;
use rows::record;
use rows::record::Record;

// The record at a place becomes free, in front of the free records.
fn free_record(store: &mut [u8], place: usize)
    requires { (1 ≤ place) × (place ≤ rec_count) × (store_bytes 0 ≤ length store.old) }
    ensures { store.new ≡ rec_free place store.old }
{
    let row = record::record_at(place);
    let link = [store[Head::FREE]];
    let head = [place as u8];
    octets::copy_in(store, row, &link);
    octets::fill(store, row + 1, record::BYTES - 1, 0);
    octets::copy_in(store, Head::FREE, &head);
}

// The record at a place and its cells, from the place `first` on, are freed.
#[tactic(auto, using(crate::specs::ReleasedLaws::releases))]
fn release(store: &mut [u8], place: usize, first: usize)
    requires { Releasable place first store.old }
    ensures { store.new ≡ released place first store.old }
{
    free_record(store, place);
    clear::clear(store, first);
}

// The record whose link stands at byte `link` leaves its chain and is released.
#[tactic(auto, using(crate::proofs::Releases::freed, crate::specs::ReleasedLaws::releases))]
fn unlink(store: &mut [u8], link: usize)
    requires { Droppable link store.old }
    ensures { store.new ≡ unlinked link store.old }
{
    let place = usize::from(store[link]);
    let row = record::record_at(place);
    let next = [store[row]];
    let first = usize::from(store[row + Record::FIRST_CELL]);
    octets::copy_in(store, link, &next);
    release(store, place, first);
}

// The held record whose link stands at byte `link` is dropped.
#[tactic(auto, using(crate::specs::DroppedLaws::drops))]
pub fn drop(store: &mut [u8], link: usize)
    requires { (role : ℕ) × HeldAt role store.old link }
    ensures { let b = store.old in
        store.new ≡ encode (drop_step (key_in b link) (decode b)) }
{
    unlink(store, link);
}

// The oldest whole record is dropped.
pub fn take_first(store: &mut [u8])
    requires { Takable store.old }
    ensures { store.new ≡ encode (take_step (decode store.old)) }
{
    unlink(store, Head::WHOLE);
}
