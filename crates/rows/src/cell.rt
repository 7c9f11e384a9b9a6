// A cell of a store, which holds one piece.

ghost use Rattle.std.specs.Prelude.{◌≡◌, ◌+◌, ◌<◌, ◌≤◌, length};
ghost use Rattle.machine.specs.Limits.{cell_bytes, most_cells};
ghost use Rattle.machine.specs.Layout.{cell_off, size_width, size_at, bytes_at, num_at, cell_of};
ghost use Rattle.machine.specs.Rows.{zero_from};
ghost use Rattle.machine.specs.Sound.{cell_fits};
ghost use Rattle.rows.specs.Asked.{piece_fits};

#[derive(Clone, Copy)]
pub struct Cell {}

impl Cell {
    pub const NEXT: usize = 0;

    pub const INDEX: usize = 1;

    pub const SIZE: usize = 2;

    pub const STAMP: usize = 4;

    pub const STATE: usize = 12;

    pub const GAP: usize = 13;

    pub const PIECE: usize = 16;
}

// Where the first cell stands, the bytes of one, how many there are at most, and the bytes of a piece at most.
pub const FIRST: usize = crate::record::FIRST + crate::record::COUNT * crate::record::BYTES;

pub const BYTES: usize = 1380;

pub const MOST: usize = 45;

pub const LARGEST: usize = BYTES - Cell::PIECE;

// One step more than there are cells: a walk along a chain of sound bytes has ended before.
pub const STEPS: usize = MOST + 1;

// Where the cell at a place starts.
pub fn cell_at(place: usize) -> usize
    requires { (1 ≤ place) × (place ≤ most_cells) }
    ensures { result ≡ cell_off place }
{
    FIRST + BYTES * (place - 1)
}

// The states of a piece.
pub const STARTED: u8 = 0;

pub const SENT: u8 = 1;

pub const ACKED: u8 = 2;

// The size of the piece in a cell.
pub fn size(row: &[u8]) -> usize
    requires { length row.now ≡ cell_bytes }
    ensures { (result ≡ num_at size_width row.now size_at) × (result < 65536) }
{
    octets::read::<2>(row, Cell::SIZE) as usize
}

// Whether stamp and state are in range, and zero where there is no sender.
pub fn sending_fits(row: &[u8], role: u64) -> bool
    requires { length row.now ≡ cell_bytes }
    ensures { result ≡ cell_fits role (cell_of 0 row.now) }
{
    let stamp = octets::read::<8>(row, Cell::STAMP);
    let state = row[Cell::STATE];
    if role == crate::head::RECEIVE {
        return (stamp == 0) & (state == 0);
    }
    (state <= ACKED) & ((state == SENT) | (stamp == 0))
}

// Where a piece that was cut from a message ends, and what is left of its cell.
const CUT_END: usize = Cell::PIECE + crate::message::CUT_BYTES;

const CUT_REST: usize = BYTES - CUT_END;

// Whether what follows a piece of n bytes is zero. Nearly every piece was cut, and of such a one the compiler knows how long
// its loop is.
fn ends(row: &[u8], n: usize) -> bool
    requires { (length row.now ≡ cell_bytes) × (bytes_at + n ≤ cell_bytes) }
    ensures { result ≡ zero_from cell_bytes (bytes_at + n) row.now }
{
    if n == crate::message::CUT_BYTES {
        return octets::zero_part(row, CUT_END, CUT_REST);
    }
    octets::zero_part(row, Cell::PIECE + n, BYTES - (Cell::PIECE + n))
}

// Whether the row is that of a cell with a piece.
pub fn fits(row: &[u8], role: u64) -> bool
    requires { length row.now ≡ cell_bytes }
    ensures { result ≡ piece_fits role row.now }
{
    let n = size(row);
    if n > LARGEST {
        return false;
    }
    let gap = octets::zero_part(row, Cell::GAP, Cell::PIECE - Cell::GAP);
    let rest = ends(row, n);
    let sending = sending_fits(row, role);
    gap & rest & sending
}
