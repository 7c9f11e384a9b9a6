// Where a piece of a held record stands, or would stand.
ghost use Rattle.std.specs.Prelude.{◌≡◌};
ghost use Rattle.machine.specs.Find.{is_some};
ghost use Rattle.machine.specs.Pieces.{piece_at};
ghost use Rattle.records.specs.HeldAt.{place_at, rec_in};
ghost use Rattle.pieces.specs.InPlace.{first_link, Spot};

use crate::link::CellLink;
use records::find::Held;
use records::row::Row;
use rows::record::Record;

// The byte of the record's link to its first cell.
pub fn first_link(row: Row<'_>) -> usize
    ensures { let b = row.entry.store.now in
        result ≡ first_link (place_at b row.entry.link) }
{
    row.start() + Record::FIRST_CELL
}

// The link to a held record's piece at an index, or the link where one would be put in, by the byte where it stands.
#[derive(Clone, Copy)]
pub struct PieceLink<'a, const ROLE: u64> {
    pub held: Held<'a, ROLE>,
    pub index: u64,
    pub at: usize,
    ghost spot: { let b = held.row.store.now in
        Spot b (place_at b held.row.link) index at },
}

impl<'a, const ROLE: u64> PieceLink<'a, ROLE> {
    // That of the record's piece at an index.
    #[tactic(auto, using(crate::proofs::Spots::spots))]
    pub fn find(held: Held<'a, ROLE>, index: u64) -> PieceLink<'a, ROLE>
        ensures { (result.held ≡ held.entry) × (result.index ≡ index) }
    {
        let first = CellLink {
            store: held.row.store,
            at: first_link(held.row),
        };
        let at = first.seek(index);
        PieceLink { held, index, at }
    }

    // Whether the record has a piece there.
    #[tactic(auto, using(crate::proofs::Spots::spots))]
    pub fn is_taken(self) -> bool
        ensures { let r = self.entry.held.row in
            result ≡ is_some (piece_at self.entry.index (rec_in r.store.now r.link).cells) }
    {
        let link = CellLink {
            store: self.held.row.store,
            at: self.at,
        };
        link.holds(self.index)
    }
}
