// The report on a message that leaves. Document 01, "Report, into its buffer": destination (16), state (1),
// counts of Started, Sent and Acked (1 each), created and end in whole seconds (8 each), length (8).
ghost use Rattle.std.specs.Prelude.{◌≡◌, ◌≤◌, length};
ghost use Rattle.std.proofs.Math.Option.{some};
ghost use Rattle.octets.specs.Octets.{put};
ghost use Rattle.answer.specs.Answers.{bare};
ghost use Rattle.answer.specs.Results.{answered};
ghost use Rattle.machine.specs.Layout.{decode};
ghost use Rattle.machine.specs.Receive.{found};
ghost use Rattle.machine.specs.Refusals.{refusal};
ghost use Rattle.machine.specs.Report.{report_room, counted, reported, report_at};
ghost use Rattle.records.specs.HeldAt.{Sends};
ghost use Rattle.outbox.specs.Rows.{report_tests};

use crate::record::Leaving;
use answer::Refusal;
use octets::{copy_in, write};
use pieces::walk;
use records::find::Store;
use rows::cell::{ACKED, SENT, STARTED};
use rows::head::SEND;
use rows::record::IN_PROGRESS;

// Where each part of a report stands behind the destination, and how long it is.
const MARKS: usize = 16;

const CREATED: usize = MARKS + 4;

const END: usize = CREATED + 8;

const LENGTH: usize = END + 8;

const ROOM: usize = LENGTH + 8;

// A second has so many milliseconds.
const SECOND: u64 = 1000;

impl<'a> Leaving<'a> {
    ghost use Rattle.outbox.specs.Left.{record_of};

    // How many of its pieces are in a state; 0 unless it is in progress.
    fn counted(self, state: u8) -> u8
        ensures { result ≡ counted state (record_of self.entry) }
    {
        if self.state() != IN_PROGRESS {
            return 0;
        }
        walk::count_state(self.pieces(), state) as u8
    }

    // The report on it, at the start of the buffer.
    #[tactic(auto, unfolding(machine::specs::Layout::rec_of, machine::specs::Report::reported))]
    fn put_report(self, out: &mut [u8])
        requires { report_room ≤ length out.old }
        ensures { out.new ≡ put out.old 0 (reported (some (record_of self.entry))) }
    {
        let row = self.held.row;
        let marks = [
            self.state(),
            self.counted(STARTED),
            self.counted(SENT),
            self.counted(ACKED),
        ];
        copy_in(out, 0, row.destination());
        copy_in(out, MARKS, &marks);
        write::<8>(out, CREATED, row.created() / SECOND);
        write::<8>(out, END, row.end() / SECOND);
        write::<8>(out, LENGTH, row.total());
    }
}

// The report on the message with that id, into its buffer.
#[tactic(auto, unfolding(machine::specs::Refusals::refusal))]
pub fn report(send: &[u8], id: &[u8], out: &mut [u8]) -> Result<(), Refusal>
    requires { Sends send.now }
    ensures { let o = found id.now (decode send.now).held in
        let buffer = out.old in
        record { answer = bare (answered result); out = out.new }
        ≡ report_at (refusal (report_tests buffer o)) o buffer }
{
    if out.len() < ROOM {
        return Err(Refusal::ShortOutput);
    }
    let store = Store::<'_, SEND> { bytes: send };
    let Some(record) = Leaving::find(store, id) else {
        return Err(Refusal::UnknownId);
    };
    record.put_report(out);
    Ok(())
}
