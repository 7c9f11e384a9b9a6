// Records are found by their ids, and free ones and free cells.

ghost use Rattle.std.specs.Prelude.{◌≡◌, true, length, ltb, ◌<◌, get_or, MatchOption};
ghost use Rattle.std.proofs.Math.Option.{none, some};
ghost use Rattle.octets.specs.Octets.{Bytes};
ghost use Rattle.machine_writes.specs.Links.{Links, RecLink};
ghost use Rattle.machine.specs.Find.{is_some};
ghost use Rattle.machine.specs.Receive.{found};
ghost use Rattle.machine.specs.Layout.{held_at, whole_at, count_at, rec_chain, decode};
ghost use Rattle.machine.specs.Sound.{sound};
ghost use Rattle.records.specs.Seek.{seek};
ghost use Rattle.records.specs.HeldAt.{rec_in, key_in, HeldAt};

use crate::row::Row;
use rows::head::Head;
use rows::record;
use rows::record::{ID_SIZE, Record};
use soundness::pieces::Pieces;
use soundness::records::Records;

// A held record of a sound store of a role.
#[derive(Clone, Copy)]
pub struct Held<'a, const ROLE: u64> {
    pub row: Row<'a>,
    ghost held: { HeldAt ROLE row.store.now row.link },
}

// A sound store of a role, to be read.
#[derive(Clone, Copy)]
pub struct Store<'a, const ROLE: u64> {
    pub bytes: &'a [u8],
    ghost octets: { Bytes bytes.now },
    ghost sound: { sound ROLE bytes.now ≡ true },
}

// A link to a record, or the 0 that ends a chain, by the byte where it stands in a store whose links are in range.
#[derive(Clone, Copy)]
pub struct RecordLink<'a> {
    pub store: &'a [u8],
    pub at: usize,
    ghost links: { Links store.now },
    ghost inside: { RecLink store.now at },
}

impl RecordLink<'_> {
    // From it on, where the link to the record with that id stands, or else the link that ends the chain.
    #[tactic(auto, using(crate::proofs::Following::follows))]
    pub fn seek(self, id: &[u8]) -> usize
        ensures { result ≡ seek id.now self.entry.store.now self.entry.at }
    {
        let mut here = self.at;
        for n in 0..record::STEPS {
            let place = usize::from(self.store[here]);
            if place == 0 {
                return here;
            }
            let row = record::record_at(place);
            let a = row + Record::ID;
            let e = a + ID_SIZE;
            if octets::equal(id, &self.store[a..e]) {
                return here;
            }
            here = row;
        }
        here
    }
}

impl<'a, const ROLE: u64> Held<'a, ROLE> {
    ghost use Rattle.soundness.specs.Places.{pieces_left};

    // Its pieces.
    #[tactic(auto, using(crate::specs::ReadableLaws::reads))]
    pub fn pieces(self) -> Pieces<'a>
        ensures { pieces_left result ≡ (rec_in self.entry.row.store.now self.entry.row.link).cells }
    {
        let store = Store::<'a, ROLE> {
            bytes: self.row.store,
        };
        store.headed().pieces(self.row.first_cell())
    }
}

impl<'a, const ROLE: u64> Store<'a, ROLE> {
    ghost use Rattle.soundness.specs.Places.{places, pieces_left};

    // The store, by its head.
    #[tactic(auto, using(crate::specs::ReadableLaws::reads))]
    pub fn headed(self) -> soundness::store::Store<'a>
        ensures { let b = self.entry.bytes.now in
            (result.bytes.now ≡ b) × (result.cells ≡ get_or b count_at 0) × (result.role ≡ ROLE) }
    {
        let bytes = self.bytes;
        let cells = usize::from(bytes[Head::CELLS]);
        soundness::store::Store {
            bytes,
            cells,
            role: ROLE,
        }
    }

    // The records that are held.
    #[tactic(auto, using(crate::specs::ReadableLaws::reads))]
    pub fn held(self) -> Records<'a>
        ensures { let b = self.entry.bytes.now in
            places result ≡ rec_chain b (get_or b held_at 0) }
    {
        let store = self.headed();
        store.records(store.head(Head::HELD))
    }

    // The records that are whole.
    #[tactic(auto, using(crate::specs::ReadableLaws::reads))]
    pub fn whole(self) -> Records<'a>
        ensures { let b = self.entry.bytes.now in
            places result ≡ rec_chain b (get_or b whole_at 0) }
    {
        let store = self.headed();
        store.records(store.head(Head::WHOLE))
    }

    // The held record with that id.
    #[tactic(auto, using(crate::proofs::Finds::finds))]
    pub fn find(self, id: &[u8]) -> Option<Held<'a, ROLE>>
        ensures { let b = self.entry.bytes.now in
            let r = found id.now (decode b).held in
            MatchOption result (r ≡ none)
            (λ h. (h.row.store.now ≡ b) × HeldAt ROLE b h.row.link
            × (r ≡ some (rec_in b h.row.link)) × (key_in b h.row.link ≡ id.now)) }
    {
        let store = self.bytes;
        let first = RecordLink {
            store,
            at: Head::HELD,
        };
        let link = first.seek(id);
        if store[link] == 0 {
            return None;
        }
        Some(Held {
            row: Row { store, link },
        })
    }

    // Whether a record with that id is held.
    pub fn is_held(self, id: &[u8]) -> bool
        ensures { result ≡ is_some (found id.now (decode self.entry.bytes.now).held) }
    {
        self.find(id).is_some()
    }

    // Whether a record with that id is whole.
    #[tactic(auto, using(crate::proofs::Finds::finds))]
    pub fn is_whole(self, id: &[u8]) -> bool
        ensures { result ≡ is_some (found id.now (decode self.entry.bytes.now).whole) }
    {
        let first = RecordLink {
            store: self.bytes,
            at: Head::WHOLE,
        };
        self.bytes[first.seek(id)] > 0
    }

    // Whether a record is free.
    #[tactic(auto, using(crate::proofs::Finds::finds))]
    pub fn is_free(self) -> bool
        ensures { result ≡ ltb 0 (length (decode self.entry.bytes.now).free) }
    {
        self.bytes[Head::FREE] > 0
    }

    // The cells that are free, read as pieces.
    #[tactic(auto, using(crate::specs::ReadableLaws::reads))]
    pub fn free_cells(self) -> Pieces<'a>
        ensures { length (pieces_left result) ≡ length (decode self.entry.bytes.now).free_cells }
    {
        let store = self.headed();
        store.pieces(store.head(Head::FREE_CELLS))
    }

    // Whether a cell is free.
    #[tactic(auto, using(crate::proofs::Finds::finds))]
    pub fn is_free_cell(self) -> bool
        ensures { result ≡ ltb 0 (length (decode self.entry.bytes.now).free_cells) }
    {
        self.bytes[Head::FREE_CELLS] > 0
    }
}
