// A held record becomes whole: it leaves the held chain and goes last in the whole chain.

ghost use Rattle.std.specs.Prelude.{◌≡◌, true, ◌<◌, length};
ghost use Rattle.machine.specs.Codes.{role_receive};
ghost use Rattle.machine.specs.Layout.{whole_at, encode, decode};
ghost use Rattle.machine.specs.Sound.{is_complete};
ghost use Rattle.machine.specs.Receive.{done_step};
ghost use Rattle.records.specs.Seek.{seek};
ghost use Rattle.records.specs.HeldAt.{rec_in, key_in, HeldAt, Reached};
ghost use Rattle.records.specs.Finishing.{finished};

use crate::find::{Held, RecordLink};
use crate::row;
use crate::row::Row;
use rows::head::{Head, RECEIVE};

// Where a search of the whole chain ends for the id of a held record.
#[tactic(auto, using(crate::proofs::Finishes::whole, crate::specs::MetLaws::here))]
fn whole_end(held: Held<'_, RECEIVE>) -> usize
    ensures { let row = held.entry.row in
        result ≡ seek (key_in row.store.now row.link) row.store.now whole_at }
{
    let row = held.row;
    let first = RecordLink {
        store: row.store,
        at: Head::WHOLE,
    };
    first.seek(row.id())
}

// The record whose link stands at byte `link` becomes whole, behind the link at byte `last`.
#[tactic(auto, using(crate::proofs::Finishes::whole))]
fn make_whole(store: &mut [u8], link: usize, last: usize)
    requires { Reached store.old link × (last < length store.old) }
    ensures { store.new ≡ finished link last store.old }
{
    let row = Row { store, link }.start();
    let next = [store[row]];
    let front = [0, row::WHOLE];
    let end = [store[link]];
    octets::copy_in(store, link, &next);
    octets::copy_in(store, row, &front);
    octets::copy_in(store, last, &end);
}

// The held record whose link stands at byte `link` becomes whole, last in the whole chain: its own id, which is not whole,
// leads to the end.
#[tactic(auto, using(crate::specs::MetLaws::here, crate::specs::FinishedLaws::finishes))]
pub fn finish(store: &mut [u8], link: usize)
    requires { HeldAt role_receive store.old link × (is_complete (rec_in store.old link) ≡ true) }
    ensures { let b = store.old in
        store.new ≡ encode (done_step (key_in b link) (decode b)) }
{
    let row = Row { store, link };
    let last = whole_end(Held { row });
    make_whole(store, link, last);
}
