// The records of a chain: each with its pieces, which are counted, and with an id of its own.

ghost use Rattle.std.specs.Prelude.{◌≡◌, true, suc, ◌+◌, ◌≤◌, ◌<◌, length, get_or, []};
ghost use Rattle.std.specs.Bool.{then_some};
ghost use Rattle.octets.specs.Lists.{all};
ghost use Rattle.octets.specs.Octets.{part, same};
ghost use Rattle.machine.specs.Limits.{rec_count, rec_bytes};
ghost use Rattle.machine.specs.Counting.{inside};
ghost use Rattle.machine.specs.Chains.{link, walk};
ghost use Rattle.machine.specs.Layout.{rec_at, rec_chain};
ghost use Rattle.machine.specs.Values.{same_key};
ghost use Rattle.soundness.specs.Walked.{At, key_at, unlike, pieces_at, pieces_of, readable};
ghost use Rattle.soundness.specs.Walked.{record_pieces, records_fit, counted};

use crate::chain::Table;
use crate::store::Store;
use rows::record::{ID_SIZE, Record, STEPS};

// The place of a record.
#[derive(Clone, Copy)]
pub struct Place {
    pub number: usize,
    ghost inside: { At number },
}

// What is left of a chain of records: the place of the next one, 0 for none, and the steps of the walk. All records
// ahead lie inside.
#[derive(Clone, Copy)]
pub struct Records<'a> {
    pub store: Store<'a>,
    pub next: usize,
    pub left: usize,
    ghost few: { left ≤ suc rec_count },
    ghost within: { all (inside rec_count) (walk (link (rec_at store.bytes.now)) left next) ≡ true },
}

impl<'a> Store<'a> {
    ghost use Rattle.soundness.specs.Places.{places};

    // The row of the record x.
    pub fn record(self, x: Place) -> &'a [u8]
        ensures { (result.now ≡ rec_at self.entry.bytes.now x.number) × (length result.now ≡ rec_bytes) }
    {
        self.row(Table::RECORDS, x.number)
    }

    // A byte of the record x.
    pub fn byte(self, x: Place, field: usize) -> usize
        requires { field < rec_bytes }
        ensures { result ≡ get_or (rec_at self.entry.bytes.now x.number) field 0 }
    {
        usize::from(self.record(x)[field])
    }

    // No records.
    #[tactic(auto, using(crate::proofs::Walks::walk_out))]
    pub fn no_records(self) -> Records<'a>
        ensures { places result ≡ [] }
    {
        Records {
            store: self,
            next: 0,
            left: 0,
        }
    }

    // The records of a chain.
    pub fn records(self, first: usize) -> Records<'a>
        requires { all (inside rec_count) (rec_chain self.bytes.now first) ≡ true }
        ensures { places result ≡ rec_chain self.entry.bytes.now first }
    {
        Records {
            store: self,
            next: first,
            left: STEPS,
        }
    }

    // Whether the SIZE bytes at FIELD of the records x and y are the same. Both numbers are known where it is called: every
    // two records are compared, and so many bytes at once.
    #[tactic(auto, unfolding(octets::specs::Octets::part))]
    pub fn same_bytes<const FIELD: usize, const SIZE: usize>(self, x: Place, y: Place) -> bool
        requires { FIELD + SIZE ≤ rec_bytes }
        ensures { let b = self.entry.bytes.now in
            result ≡ same (part (rec_at b x.number) FIELD SIZE) (part (rec_at b y.number) FIELD SIZE) }
    {
        let one = &self.record(x)[FIELD..FIELD + SIZE];
        let two = &self.record(y)[FIELD..FIELD + SIZE];
        octets::equal(one, two)
    }

    // Whether the records x and y have one key.
    #[tactic(auto, unfolding(machine::specs::Values::same_key))]
    fn same_key(self, x: Place, y: Place) -> bool
        ensures { let b = self.entry.bytes.now in
            result ≡ same_key (key_at b x.number) (key_at b y.number) }
    {
        self.same_bytes::<{ Record::ID }, ID_SIZE>(x, y)
    }

    // Whether none of the records has the key of the record x.
    fn no_other(self, x: Place, mut records: Records<'_>) -> bool
        ensures { result ≡ all (unlike self.entry.bytes.now x.number) (places records.entry) }
    {
        records.all(|y| !self.same_key(x, y))
    }

    // How many pieces the record x has, if they are as the kind asks.
    #[tactic(auto, unfolding(crate::specs::Walked::record_pieces))]
    fn count_pieces(self, x: Place, kind: u64) -> Option<u8>
        requires { all (readable self.cells self.bytes.now) (pieces_at self.bytes.now x.number) ≡ true }
        ensures { let b = self.entry.bytes.now in
            result ≡ then_some (record_pieces kind b x.number) (length (pieces_at b x.number)) }
    {
        let row = self.record(x);
        let first = usize::from(row[Record::FIRST_CELL]);
        let slots = u64::from(row[Record::SLOTS]);
        let length = octets::read::<8>(row, Record::LENGTH);
        self.pieces(first).fit(kind, slots, length)
    }

    // Whether each of the records has its pieces, and a key that neither a later one nor one of the others has; then
    // `counts` has the number of its pieces at its place.
    #[inline(always)]
    #[tactic(auto, using(crate::proofs::Rests::records))]
    pub fn records_fit(
        self,
        kind: u64,
        mut records: Records<'_>,
        others: Records<'_>,
        counts: &mut [u8; STEPS],
    ) -> bool
        requires { let b = self.bytes.now in
            all (readable self.cells b) (pieces_of b (places records)) ≡ true }
        ensures { let b = self.entry.bytes.now in
            (result ≡ records_fit kind b (places records.entry) (places others.entry))
            × (result ≡ true → counts.new ≡ counted b (places records.entry) counts.old) }
    {
        // no `for`, since what is left of the chain is asked too
        while let Some(x) = records.next() {
            let pieces = self.count_pieces(x, kind);
            let later = self.no_other(x, records);
            let other = self.no_other(x, others);
            match pieces {
                Some(count) if later & other => counts[x.number] = count,
                _ => return false,
            }
        }
        true
    }
}

impl Iterator for Records<'_> {
    ghost use Rattle.std.specs.Iterator.{YieldsFirstBy, item_count};
    ghost use Rattle.soundness.specs.Places.{places};

    type Item = Place;

    ghost next_gives = { YieldsFirstBy (λ x. x.number) places };

    ghost remaining = { item_count places };

    // Beside that of pieces, since it gives places, of which two chains are compared, and that gives rows.
    #[tactic(auto, using(crate::proofs::Walks::walks))]
    fn next(&mut self) -> Option<Place> {
        if self.next == 0 || self.left == 0 {
            return None;
        }
        let place = Place { number: self.next };
        *self = Records {
            store: self.store,
            next: self.store.byte(place, Record::NEXT),
            left: self.left - 1,
        };
        Some(place)
    }
}
