// A whole store.

ghost use Rattle.std.specs.Prelude.{◌≡◌, true, false, ◌<◌, get_or, MatchOption};
ghost use Rattle.machine.specs.Limits.{head_bytes};
ghost use Rattle.machine.specs.Codes.{held_kind};
ghost use Rattle.machine.specs.Layout.{count_at};
ghost use Rattle.machine.specs.Sound.{sound};
ghost use Rattle.rows.specs.Asked.{head_fits};
ghost use Rattle.soundness.specs.Walked.{Room, records_once, cells_once, RecordsInside};

use crate::chain::{Table, all_marked};
use rows::head::{Head, RECEIVE};
use rows::record::{ARRIVING, LEAVING, STEPS, WHOLE};
use rows::{Holds, cell};

// Bytes as long as a store of so many cells, read in a role. A role may be any number, and a kind of records too: a
// caller's and a store's byte may be any.
#[derive(Clone, Copy)]
pub struct Store<'a> {
    pub bytes: &'a [u8],
    pub cells: usize,
    pub role: u64,
    ghost room: { Room cells bytes.now },
}

// The kind of held records.
pub fn held_kind(role: u64) -> u64
    ensures { result ≡ held_kind role }
{
    if role == RECEIVE { ARRIVING } else { LEAVING }
}

impl<'a> Store<'a> {
    // The store that the bytes are; none where their head is not that of a store of the role.
    #[tactic(auto, using(crate::proofs::Whole::heads))]
    pub fn new(bytes: &'a [u8], role: u64) -> Option<Store<'a>>
        ensures { MatchOption result (head_fits role bytes.now ≡ false)
            (λ s. (head_fits role bytes.now ≡ true) × (s.bytes.now ≡ bytes.now) × (s.role ≡ role)
            × (s.cells ≡ get_or bytes.now count_at 0)) }
    {
        if !rows::head::fits(bytes, role) {
            return None;
        }
        let cells = usize::from(bytes[Head::CELLS]);
        Some(Store { bytes, cells, role })
    }

    // A byte of the head.
    pub fn head(self, field: usize) -> usize
        requires { field < head_bytes }
        ensures { result ≡ get_or self.entry.bytes.now field 0 }
    {
        usize::from(self.bytes[field])
    }

    // The kind of held records.
    pub fn held_kind(self) -> u64
        ensures { result ≡ held_kind self.entry.role }
    {
        held_kind(self.role)
    }

    // Whether each record is in the one chain its kind names, and its row as asked.
    fn records_once(self) -> bool
        ensures { result ≡ records_once self.entry.role self.entry.bytes.now }
    {
        let mut marks = [0u8; cell::STEPS];
        let held = Holds::Record(self.held_kind());
        let whole = Holds::Record(WHOLE);
        let a = self.marked(
            Table::RECORDS,
            Holds::Free,
            self.head(Head::FREE),
            &mut marks,
        );
        let b = self.marked(Table::RECORDS, held, self.head(Head::HELD), &mut marks);
        let c = self.marked(Table::RECORDS, whole, self.head(Head::WHOLE), &mut marks);
        (a & (b & c)) & all_marked(&marks, Table::RECORDS.count)
    }

    // Whether each cell is in one chain, of free cells or of a record's pieces, and its row as asked.
    fn cells_once(self) -> bool
        requires { RecordsInside self.bytes.now }
        ensures { result ≡ cells_once self.entry.cells self.entry.role self.entry.bytes.now }
    {
        let mut marks = [0u8; cell::STEPS];
        let held = self.records(self.head(Head::HELD));
        let whole = self.records(self.head(Head::WHOLE));
        let a = self.marked(
            Table::cells(self.cells),
            Holds::Free,
            self.head(Head::FREE_CELLS),
            &mut marks,
        );
        let b = self.pieces_marked(held, &mut marks);
        let c = self.pieces_marked(whole, &mut marks);
        (a & (b & c)) & all_marked(&marks, self.cells)
    }

    // Whether the store is sound.
    #[tactic(auto, using(crate::proofs::Whole::parts))]
    fn is_sound(self) -> bool
        requires { (head_fits self.role self.bytes.now ≡ true) × (self.cells ≡ get_or self.bytes.now count_at 0) }
        ensures { result ≡ sound self.entry.role self.entry.bytes.now }
    {
        if !self.records_once() || !self.cells_once() {
            return false;
        }
        let held = self.records(self.head(Head::HELD));
        let whole = self.records(self.head(Head::WHOLE));
        let mut counts = [0u8; STEPS];
        let a = self.records_fit(self.held_kind(), held, whole, &mut counts);
        let b = self.records_fit(WHOLE, whole, self.no_records(), &mut counts);
        let kinds = (self.role == RECEIVE) | (self.head(Head::WHOLE) == 0);
        (kinds & (a & b)) & self.fair(held, whole, &counts)
    }
}

// Whether the bytes are a sound store of the role.
#[tactic(auto, using(crate::proofs::Whole::no_head))]
pub fn sound(store: &[u8], role: u64) -> bool
    ensures { result ≡ sound role store.now }
{
    match Store::new(store, role) {
        Some(store) => store.is_sound(),
        None => false,
    }
}
