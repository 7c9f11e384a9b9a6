// The cells that the records of one source hold together, by the counts of their pieces.

ghost use Rattle.std.specs.Prelude.{◌≡◌, not, ◌&&◌, ◌||◌, suc, ◌*◌, ◌≤◌, ◌<◌, [], eqb};
ghost use Rattle.machine.specs.Limits.{rec_count, most_of_source};
ghost use Rattle.machine.specs.Codes.{role_receive};
ghost use Rattle.machine.specs.Counting.{total};
ghost use Rattle.soundness.specs.Walked.{share_at, fair_on};

use crate::records::{Place, Records};
use crate::store::Store;
use rows::record::{ADDRESS_SIZE, MOST_OF_SOURCE, Record, STEPS};

impl Store<'_> {
    ghost use Rattle.soundness.specs.Places.{places};

    // The cells that the record y holds for the source of the record x.
    #[tactic(auto, unfolding(crate::specs::Walked::share_at))]
    fn share(self, counts: &[u8; STEPS], x: Place, y: Place) -> u64
        ensures { (result ≡ share_at self.entry.bytes.now counts.now x.number y.number) × (result < 256) }
    {
        if self.same_bytes::<{ Record::SOURCE }, ADDRESS_SIZE>(x, y) {
            u64::from(counts[y.number])
        } else {
            0
        }
    }

    // The cells that the records hold for the source of the record x.
    #[tactic(auto, using(crate::proofs::Walks::places_few))]
    fn shares(self, counts: &[u8; STEPS], x: Place, records: Records<'_>) -> u64
        ensures { let b = self.entry.bytes.now in
            (result ≡ total (share_at b counts.now x.number) (places records.entry))
            × (result ≤ 256 * suc rec_count) }
    {
        let mut sum: u64 = 0;
        for y in records {
            sum += self.share(counts, x, y);
        }
        sum
    }

    // Whether the source of each of the records holds at most its share: in it, the later ones and the others.
    #[inline(always)]
    #[tactic(auto, using(crate::proofs::Rests::shares))]
    fn within(self, counts: &[u8; STEPS], mut records: Records<'_>, others: Records<'_>) -> bool
        ensures { let b = self.entry.bytes.now in
            result ≡ fair_on most_of_source b counts.now (places records.entry) (places others.entry) }
    {
        // no `for`, since what is left of the chain counts too
        while let Some(x) = records.next() {
            let own = u64::from(counts[x.number]);
            let later = self.shares(counts, x, records);
            let other = self.shares(counts, x, others);
            if own + (later + other) > MOST_OF_SOURCE {
                return false;
            }
        }
        true
    }

    // Whether no source holds more than its share, in a store to receive that has these held and whole records.
    pub fn fair(self, held: Records<'_>, whole: Records<'_>, counts: &[u8; STEPS]) -> bool
        ensures { let fair = fair_on most_of_source self.entry.bytes.now counts.now in
            let one = places held.entry in
            let two = places whole.entry in
            result ≡ (not (eqb self.entry.role role_receive) || (fair one two && fair two [])) }
    {
        if self.role != rows::head::RECEIVE {
            return true;
        }
        self.within(counts, held, whole) & self.within(counts, whole, self.no_records())
    }
}
