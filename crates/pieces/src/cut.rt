// The data of a message, cut by 1,300: its pieces take the first free cells, in index order.
ghost use Rattle.std.specs.Prelude.{◌≡◌, true, ◌≤◌, length, get_or, drop};
ghost use Rattle.machine.specs.Limits.{longest, slots_of};
ghost use Rattle.machine.specs.Codes.{role_send};
ghost use Rattle.machine.specs.Layout.{cell_off, decode};
ghost use Rattle.machine.specs.Sound.{sound};
ghost use Rattle.machine.specs.Pieces.{cut_pieces};
ghost use Rattle.machine_writes.specs.Cut.{cut_bytes};
ghost use Rattle.pieces.specs.InPlace.{CellIn};
ghost use Rattle.pieces.specs.Laying.{piece_laid};

use crate::row::put_cell;
use octets::copy_in;
use rows::cell::cell_at;
use rows::head::Head;
use rows::message::{CUT_BYTES, slots};

// The first piece of the bytes that are left, in the free cell at a place; answers the link to the next free cell, where it
// leads too if more bytes follow.
#[tactic(auto, using(crate::proofs::Cuts::lays))]
fn lay(store: &mut [u8], place: usize, index: u8, bytes: &[u8]) -> u8
    requires { CellIn store.old place }
    ensures { let b = store.old in
        (result ≡ get_or b (cell_off place) 0)
        × (store.new ≡ piece_laid b place index bytes.now) }
{
    let row = cell_at(place);
    let next = store[row];
    if bytes.len() > CUT_BYTES {
        put_cell(store, place, next, index, &bytes[..CUT_BYTES]);
    } else {
        put_cell(store, place, 0, index, bytes);
    }
    next
}

// The pieces of the bytes, in the first free cells: by the index, which each cell's row has.
pub fn cut(store: &mut [u8], bytes: &[u8])
    requires { (sound role_send store.old ≡ true) × (length bytes.now ≤ longest)
        × (slots_of (length bytes.now) ≤ length (decode store.old).free_cells) }
    ensures { let b = store.old in
        let d = bytes.now in
        let n = slots_of (length d) in
        let free = (decode b).free_cells in
        store.new ≡ cut_bytes b (cut_pieces n 0 free d) (drop n free) }
{
    let mut free = store[Head::FREE_CELLS];
    for index in 0..slots(bytes.len() as u64) as u8 {
        let left = &bytes[CUT_BYTES * usize::from(index)..];
        free = lay(store, usize::from(free), index, left);
    }
    let rest = [free];
    copy_in(store, Head::FREE_CELLS, &rest);
}
