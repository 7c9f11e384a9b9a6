// Take: the oldest whole message leaves the store.

ghost use Rattle.std.specs.Prelude.{◌≡◌, ◌++◌, ◌+◌, ◌≤◌, length};
ghost use Rattle.octets.specs.Octets.{put};
ghost use Rattle.answer.specs.Results.{answer_of};
ghost use Rattle.packet.specs.Outgoing.{entry, read_packet};
ghost use Rattle.machine.specs.Limits.{rec_bytes};
ghost use Rattle.machine.specs.Layout.{whole_at, decode};
ghost use Rattle.machine.specs.Pieces.{joined};
ghost use Rattle.machine.specs.Refusals.{refusal};
ghost use Rattle.machine.specs.Take.{oldest_row, take_room, take_at};
ghost use Rattle.records.specs.HeldAt.{row_in, rec_in, Receives};
ghost use Rattle.inbox.specs.Oldest.{Oldest};

use answer::{Done, Refusal};
use packet::{header, run};
use records::find::Store;
use records::row::Row;
use rows::head::{Head, RECEIVE};
use rows::record;

// What a read packet takes in a run.
const READ_ROOM: usize = run::PACKET + header::SIZE;

// The record of the oldest whole message of a sound store, to be read.
#[derive(Clone, Copy)]
struct Whole<'a> {
    row: Row<'a>,
    ghost oldest: { Oldest row.store.now },
    ghost first: { row.link ≡ whole_at },
}

impl<'a> Whole<'a> {
    // Its read packet, from its destination to its source.
    fn put_read(self, run: &mut [u8])
        requires { take_room ≤ length run.old }
        ensures { let row = self.entry.row in
            let h = (rec_in row.store.now row.link).label in
            run.new ≡ put run.old 0 (entry h.destination h.source (read_packet h.id)) }
    {
        run::put_header(
            run,
            0,
            self.row.destination(),
            self.row.source(),
            self.row.id(),
            header::FLAG_READ,
        );
    }

    // Its record as it stands, then its data.
    fn put_message(self, taken: &mut [u8])
        requires { rec_bytes + (rec_in self.row.store.now self.row.link).label.total ≤ length taken.old }
        ensures { let row = self.entry.row in
            let b = row.store.now in
            taken.new ≡ put taken.old 0 (row_in b row.link ++ joined (rec_in b row.link).cells) }
    {
        octets::copy_in(taken, 0, self.row.whole_row());
        let store = Store::<'a, RECEIVE> {
            bytes: self.row.store,
        };
        let pieces = store.headed().pieces(self.row.first_cell());
        pieces::walk::join(pieces, &mut taken[record::BYTES..]);
    }
}

// Takes the oldest whole message out: its record and its data into `taken`, its read packet into `run`.
pub fn take(recv: &mut [u8], taken: &mut [u8], run: &mut [u8]) -> Result<Done, Refusal>
    requires { Receives recv.old }
    ensures { let b = recv.old in
        let t = taken.old in
        let o = run.old in
        let l = (decode b).whole in
        record {
          answer = answer_of result;
          recv = recv.new;
          taken = taken.new;
          out = run.new;
        }
        ≡ take_at (refusal (oldest_row l t o)) l b t o }
{
    if recv[Head::WHOLE] == 0 {
        return Err(Refusal::NoneWhole);
    }
    if run.len() < READ_ROOM {
        return Err(Refusal::ShortOutput);
    }
    let whole = Whole {
        row: Row {
            store: recv,
            link: Head::WHOLE,
        },
    };
    let total = whole.row.total() as usize;
    if taken.len() < record::BYTES + total {
        return Err(Refusal::ShortOutput);
    }
    whole.put_read(run);
    whole.put_message(taken);
    records::release::take_first(recv);
    Ok(Done {
        run: READ_ROOM as u64,
        ..Done::NOTHING
    })
}
