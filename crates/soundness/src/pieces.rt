// The pieces of records: each in one chain, and those of a record in order, complete and cut as its kind asks.

ghost use Rattle.std.specs.Prelude.{◌≡◌, true, suc, ◌≤◌, ◌<◌, length};
ghost use Rattle.std.specs.Bool.{then_some};
ghost use Rattle.octets.specs.Lists.{all};
ghost use Rattle.machine.specs.Limits.{cell_bytes, most_cells};
ghost use Rattle.machine.specs.Chains.{link, walk};
ghost use Rattle.machine.specs.Layout.{size_at, size_width, num_at, cell_at, cell_chain, read_cells};
ghost use Rattle.packet.specs.Frame.{largest_piece};
ghost use Rattle.soundness.specs.Walked.{pieces_marked, readable, complete, next_cut, pieces_fit};

use crate::chain::Table;
use crate::records::Records;
use crate::store::Store;
use rows::Holds;
use rows::cell::{Cell, STEPS};
use rows::message::CUT;
use rows::record::{ARRIVING, LEAVING, Record};

// Whether a piece is what is cut off next.
fn is_next(left: u64, size: u64) -> bool
    ensures { result ≡ next_cut left size }
{
    0 < left && size == left.min(CUT)
}

// What a record's kind asks of the number of its pieces, of the sum of their sizes, and of their cut.
fn is_complete(kind: u64, slots: u64, length: u64, count: u64, sum: u64, cut: bool) -> bool
    ensures { result ≡ complete kind slots length count sum cut }
{
    ((kind == ARRIVING) | ((count == slots) & (sum == length))) & ((kind != LEAVING) | cut)
}

// A cell with a piece: its place and its row.
#[derive(Clone, Copy)]
pub struct Piece<'a> {
    pub place: usize,
    pub row: &'a [u8],
    ghost long: { length row.now ≡ cell_bytes },
    ghost small: { num_at size_width row.now size_at ≤ largest_piece },
}

// What is left of a chain of pieces: the place of the next one, 0 for none, and the steps of the walk. All cells
// ahead can be read.
#[derive(Clone, Copy)]
pub struct Pieces<'a> {
    pub store: Store<'a>,
    pub next: usize,
    pub left: usize,
    ghost few: { left ≤ suc most_cells },
    ghost read: { let b = store.bytes.now in
        all (readable store.cells b) (walk (link (cell_at b)) left next) ≡ true },
}

impl<'a> Store<'a> {
    ghost use Rattle.soundness.specs.Places.{places, pieces_left};

    // Walks the chain of pieces of each of the records and marks their places. Inline, as `records_fit` and `within`
    // are: for a call the store and the records would be copied onto the stack.
    #[inline(always)]
    #[tactic(auto, using(crate::proofs::Rests::marked))]
    pub fn pieces_marked(self, records: Records<'_>, marks: &mut [u8; STEPS]) -> bool
        ensures { let s = self.entry in
            record { ok = result; marks = marks.new }
            ≡ pieces_marked s.cells s.role s.bytes.now (places records.entry) marks.old }
    {
        for x in records {
            let first = self.byte(x, Record::FIRST_CELL);
            if !self.marked(Table::cells(self.cells), Holds::Piece, first, marks) {
                return false;
            }
        }
        true
    }

    // The pieces from `first` on.
    pub fn pieces(self, first: usize) -> Pieces<'a>
        requires { all (readable self.cells self.bytes.now) (cell_chain self.bytes.now first) ≡ true }
        ensures { pieces_left result ≡ read_cells self.entry.bytes.now first }
    {
        Pieces {
            store: self,
            next: first,
            left: STEPS,
        }
    }
}

impl<'a> Piece<'a> {
    ghost use Rattle.soundness.specs.Places.{piece_of};

    // Its index.
    #[tactic(auto, unfolding(machine::specs::Layout::cell_of))]
    pub fn index(self) -> u64
        ensures { (result ≡ (piece_of self.entry).index) × (result < 256) }
    {
        u64::from(self.row[Cell::INDEX])
    }

    // Its size.
    #[tactic(auto, unfolding(machine::specs::Layout::cell_of), using(octets::specs::PartsLaws::length_part))]
    pub fn size(self) -> u64
        ensures { (result ≡ length (piece_of self.entry).bytes) × (result < 65536) }
    {
        octets::read::<2>(self.row, Cell::SIZE)
    }

    // Its bytes, as that part of the store.
    pub fn bytes(self) -> &'a [u8]
        ensures { result.now ≡ (piece_of self.entry).bytes }
    {
        let end = Cell::PIECE + rows::cell::size(self.row);
        &self.row[Cell::PIECE..end]
    }

    // When it was last sent, 0 for never.
    #[tactic(auto, unfolding(machine::specs::Layout::cell_of))]
    pub fn stamp(self) -> u64
        ensures { result ≡ (piece_of self.entry).stamp }
    {
        octets::read::<8>(self.row, Cell::STAMP)
    }

    // Its state.
    #[tactic(auto, unfolding(machine::specs::Layout::cell_of))]
    pub fn state(self) -> u8
        ensures { result ≡ (piece_of self.entry).state }
    {
        self.row[Cell::STATE]
    }
}

impl<'a> Iterator for Pieces<'a> {
    ghost use Rattle.std.specs.Iterator.{YieldsFirstBy, item_count};
    ghost use Rattle.soundness.specs.Places.{piece_of, pieces_left};

    type Item = Piece<'a>;

    ghost next_gives = { YieldsFirstBy piece_of pieces_left };

    ghost remaining = { item_count pieces_left };

    #[tactic(auto, using(crate::proofs::Walks::walks))]
    fn next(&mut self) -> Option<Piece<'a>> {
        if self.next == 0 || self.left == 0 {
            return None;
        }
        let row = self.store.row(Table::cells(self.store.cells), self.next);
        let piece = Piece {
            place: self.next,
            row,
        };
        *self = Pieces {
            store: self.store,
            next: usize::from(row[Cell::NEXT]),
            left: self.left - 1,
        };
        Some(piece)
    }
}

impl Pieces<'_> {
    ghost use Rattle.soundness.specs.Places.{pieces_left};

    // How many these are, if they are the pieces of a record of the kind, with so many slots and that total length.
    #[tactic(auto, using(crate::proofs::Rests::rests, crate::proofs::Walks::pieces_few))]
    pub fn fit(self, kind: u64, slots: u64, total: u64) -> Option<u8>
        ensures { let all = pieces_left self.entry in
            result ≡ then_some (pieces_fit kind slots total all) (length all) }
    {
        let mut count: u64 = 0;
        let mut low: u64 = 0;
        let mut sum: u64 = 0;
        let mut left = total;
        let mut cut = true;
        for piece in self {
            let index = piece.index();
            if index < low || slots <= index {
                return None;
            }
            let size = piece.size();
            cut &= is_next(left, size);
            left = left.saturating_sub(CUT);
            sum += size;
            low = index + 1;
            count += 1;
        }
        is_complete(kind, slots, total, count, sum, cut & (left == 0)).then_some(count as u8)
    }
}
