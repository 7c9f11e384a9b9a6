// The row of one cell: a piece written into it, and a piece's stamp and state.
ghost use Rattle.std.specs.Prelude.{◌≡◌, ◌≤◌, length};
ghost use Rattle.machine.specs.Layout.{cell_off, cell_row};
ghost use Rattle.machine.specs.Pieces.{new_cell};
ghost use Rattle.octets.specs.Octets.{put};
ghost use Rattle.packet.specs.Frame.{largest_piece};
ghost use Rattle.pieces.specs.InPlace.{rewritten, remarked, CellIn};

use octets::{copy_in, fill, write};
use rows::cell::{Cell, LARGEST, cell_at};

// A cell's whole row, with a piece that has just come; zeros past the piece.
pub fn put_cell(store: &mut [u8], place: usize, next: u8, index: u8, bytes: &[u8])
    requires { CellIn store.old place × (length bytes.now ≤ largest_piece) }
    ensures { let row = cell_row next (new_cell place index bytes.now) in
        store.new ≡ put store.old (cell_off place) row }
{
    let row = cell_at(place);
    let size = bytes.len();
    let front = [next, index];
    copy_in(store, row, &front);
    write::<2>(store, row + Cell::SIZE, size as u64);
    fill(store, row + Cell::STAMP, Cell::PIECE - Cell::STAMP, 0);
    copy_in(store, row + Cell::PIECE, bytes);
    fill(store, row + Cell::PIECE + size, LARGEST - size, 0);
}

// A piece replaced in its own cell, which keeps its link and its index.
pub fn rewrite(store: &mut [u8], place: usize, bytes: &[u8])
    requires { CellIn store.old place × (length bytes.now ≤ largest_piece) }
    ensures { store.new ≡ rewritten store.old place bytes.now }
{
    let row = cell_at(place);
    let next = store[row];
    let index = store[row + Cell::INDEX];
    put_cell(store, place, next, index, bytes);
}

// A piece's stamp and state.
#[tactic(auto, using(crate::proofs::Rows::rows))]
pub fn mark(store: &mut [u8], place: usize, stamp: u64, state: u8)
    requires { CellIn store.old place }
    ensures { store.new ≡ remarked store.old place stamp state }
{
    let row = cell_at(place);
    write::<8>(store, row + Cell::STAMP, stamp);
    let one = [state];
    copy_in(store, row + Cell::STATE, &one);
}
