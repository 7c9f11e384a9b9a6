// The cells that the records of one source hold, arriving and whole.

ghost use Rattle.std.specs.Prelude.{◌≡◌, ◌++◌, map, suc, ◌*◌, ◌≤◌};
ghost use Rattle.machine.specs.Limits.{rec_count, most_cells};
ghost use Rattle.machine.specs.Layout.{read_rec, decode};
ghost use Rattle.machine.specs.Sources.{cells_from, held_by};
ghost use Rattle.soundness.specs.Places.{places};

use records::find::Store;
use rows::record::Record;
use soundness::records::{Place, Records};

// How many cells a record holds for a source.
#[tactic(auto, using(crate::proofs::Shares::shares, records::specs::ReadableLaws::reads))]
fn of_record<const ROLE: u64>(store: Store<'_, ROLE>, source: &[u8], x: Place) -> u64
    ensures { let r = read_rec store.entry.bytes.now x.number in
        (result ≡ cells_from source.now r) × (result ≤ suc most_cells) }
{
    let headed = store.headed();
    let row = headed.record(x);
    if !octets::equal(source, &row[Record::SOURCE..Record::DESTINATION]) {
        return 0;
    }
    pieces::walk::count(headed.pieces(usize::from(row[Record::FIRST_CELL])))
}

// How many cells the records of a chain hold for a source.
#[tactic(auto, using(crate::proofs::Shares::shares))]
fn of_chain<const ROLE: u64>(store: Store<'_, ROLE>, source: &[u8], records: Records<'_>) -> u64
    ensures { let all = map (read_rec store.entry.bytes.now) (places records.entry) in
        (result ≡ held_by source.now all) × (result ≤ suc most_cells * suc rec_count) }
{
    let mut sum: u64 = 0;
    for x in records {
        sum += of_record(store, source, x);
    }
    sum
}

// How many cells a source holds.
#[tactic(auto, using(crate::proofs::Shares::shares))]
pub fn of_source<const ROLE: u64>(store: Store<'_, ROLE>, source: &[u8]) -> u64
    ensures { let s = decode store.entry.bytes.now in
        result ≡ held_by source.now (s.held ++ s.whole) }
{
    let held = of_chain(store, source, store.held());
    let whole = of_chain(store, source, store.whole());
    held + whole
}
