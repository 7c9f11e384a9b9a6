// A piece comes to its record: in its own cell where its index is held, and else in the first free cell, in index order.
ghost use Rattle.std.specs.Prelude.{◌≡◌, true, false, ◌+◌, ◌≤◌, ◌<◌, length, get_or};
ghost use Rattle.machine.specs.Limits.{rec_count, rec_bytes, most_of_source, top_of};
ghost use Rattle.machine.specs.Codes.{role_receive};
ghost use Rattle.machine.specs.Layout.{free_cells_at, rec_off, encode, decode};
ghost use Rattle.machine.specs.Receive.{chunk_step};
ghost use Rattle.machine.specs.Packet.{cells_needed, has_share};
ghost use Rattle.packet.specs.Frame.{largest_piece};
ghost use Rattle.machine_writes.specs.Links.{Links};
ghost use Rattle.records.specs.HeldAt.{place_at, rec_in, key_in, HeldAt};
ghost use Rattle.pieces.specs.InPlace.{holds_index, grown, inserted, chunked, LinkIn, Spot, PieceFits};

use crate::link::CellLink;
use crate::row::{put_cell, rewrite};
use octets::copy_in;
use rows::cell::cell_at;
use rows::head::Head;
use rows::record::{Record, record_at};

// A record's slots, grown to index + 1.
#[tactic(auto, using(crate::proofs::Inserts::inserts))]
pub fn grow(store: &mut [u8], place: usize, index: u64)
    requires { (1 ≤ place) × (place ≤ rec_count) × (rec_off place + rec_bytes ≤ length store.old)
        × (index + 1 < 256) }
    ensures { store.new ≡ grown store.old place index }
{
    let at = record_at(place) + Record::SLOTS;
    let slots = u64::from(store[at]).max(index + 1);
    let one = [slots as u8];
    copy_in(store, at, &one);
}

// A new piece in the first free cell, put into the record's chain at the link at byte `link`.
#[tactic(auto, using(crate::proofs::Inserts::inserts))]
pub fn insert(store: &mut [u8], place: usize, link: usize, index: u64, bytes: &[u8])
    requires { let b = store.old in
        Links b × LinkIn b link × PieceFits place index (length bytes.now) × (0 < get_or b free_cells_at 0) }
    ensures { store.new ≡ inserted store.old place link index bytes.now }
{
    let free = store[Head::FREE_CELLS];
    let cell = usize::from(free);
    let row = cell_at(cell);
    let after = store[row];
    let next = store[link];
    grow(store, place, index);
    put_cell(store, cell, next, index as u8, bytes);
    let rest = [after];
    copy_in(store, Head::FREE_CELLS, &rest);
    let here = [free];
    copy_in(store, link, &here);
}

// A piece of the record at a place, at a new index or at one that is held, by the link that was found for it.
#[tactic(auto, using(crate::proofs::Inserts::inserts))]
fn put_in(store: &mut [u8], place: usize, link: usize, index: u64, bytes: &[u8])
    requires { let b = store.old in
        Links b × Spot b place index link × PieceFits place index (length bytes.now)
        × (holds_index b link index ≡ false → 0 < get_or b free_cells_at 0) }
    ensures { store.new ≡ chunked store.old place index bytes.now }
{
    if (CellLink { store, at: link }).holds(index) {
        let cell = usize::from(store[link]);
        rewrite(store, cell, bytes);
    } else {
        insert(store, place, link, index, bytes);
    }
}

// A piece of the held record whose link stands at byte `link`; `spot` is the link that was found for the piece.
pub fn put_piece(store: &mut [u8], link: usize, spot: usize, index: u64, bytes: &[u8])
    requires { let b = store.old in
        let r = rec_in b link in
        HeldAt role_receive b link × Spot b (place_at b link) index spot × (index ≤ top_of r.label.total)
        × (cells_needed index r ≤ length (decode b).free_cells) × (length bytes.now ≤ largest_piece)
        × (has_share most_of_source index (decode b) r ≡ true) }
    ensures { let b = store.old in
        store.new ≡ encode (chunk_step (key_in b link) index bytes.now (decode b)) }
{
    let place = usize::from(store[link]);
    put_in(store, place, spot, index, bytes);
}
