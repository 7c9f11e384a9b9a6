// The rows of a store: where each field stands, and what PROTOCOL's "Stores" asks of one row by itself. The chains of rows are
// walked in the crate soundness. A row is a part of a store, lent as a slice that has its length: an array would have to be
// made of it at each call. A role is the number that a caller gives, and a kind that of a chain.

#![tactic(auto)]

pub mod cell;
pub mod head;
pub mod message;
pub mod record;

ghost use Rattle.std.specs.Prelude.{◌≡◌, ◌≤◌, length};
ghost use Rattle.machine.specs.Sound.{free_shape};
ghost use Rattle.rows.specs.Asked.{Sized, row_fits};

// What a row is to hold: nothing, a record of a kind, or a piece.
#[derive(Clone, Copy)]
pub enum Holds {
    Free,
    Record(u64),
    Piece,
}

// From which byte on a cell's and a record's row is whole vectors of 16 bytes, and how many bytes these are.
const CELL_VECTORS: usize = 4;

const CELL_REST: usize = cell::BYTES - CELL_VECTORS;

const RECORD_VECTORS: usize = 8;

const RECORD_REST: usize = record::BYTES - RECORD_VECTORS;

// Whether a free row is zero but for its link. Rows of cells and of records are tested in two parts of constant sizes,
// so that the compiler knows how long its loops are.
pub fn free(row: &[u8]) -> bool
    requires { 1 ≤ length row.now }
    ensures { result ≡ free_shape (length row.now) row.now }
{
    if row.len() == cell::BYTES {
        return octets::zero_part(row, 1, 3) & octets::zero_part(row, CELL_VECTORS, CELL_REST);
    }
    if row.len() == record::BYTES {
        return octets::zero_part(row, 1, 7) & octets::zero_part(row, RECORD_VECTORS, RECORD_REST);
    }
    octets::zero_part(row, 1, row.len() - 1)
}

// Whether a row is as its store's role and what it is to hold ask. Inline, so that each caller's loop has the tests
// of the one kind that it walks.
#[inline(always)]
pub fn fits(row: &[u8], role: u64, holds: Holds) -> bool
    requires { Sized holds (length row.now) }
    ensures { result ≡ row_fits role holds (length row.now) row.now }
{
    match holds {
        Holds::Free => free(row),
        Holds::Record(kind) => record::fits(row, role, kind),
        Holds::Piece => cell::fits(row, role),
    }
}
