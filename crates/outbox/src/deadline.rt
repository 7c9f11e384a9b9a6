// The deadline wake of one record: PROTOCOL, "The tablet". The host fires it; the try duration only enters
// the report.
ghost use Rattle.std.specs.Prelude.{◌≡◌, ◌≤◌, length};
ghost use Rattle.std.proofs.Math.Option.{some};
ghost use Rattle.machine.specs.Codes.{role_send};
ghost use Rattle.machine.specs.Layout.{encode, decode};
ghost use Rattle.machine.specs.Send.{unsettled, deadline_out, deadline_at};
ghost use Rattle.machine.specs.Wake.{deadline_wake_room};
ghost use Rattle.records.specs.HeldAt.{rec_in, HeldAt};
ghost use Rattle.outbox.specs.Sending.{aborted_of, Starts};

use crate::record::Leaving;
use packet::{header, run};
use records::{release, restate};
use rows::record::{IN_PROGRESS, INIT};

impl<'a> Leaving<'a> {
    ghost use Rattle.outbox.specs.Left.{record_of};

    // Whether it is neither received nor aborted.
    fn is_unsettled(self) -> bool
        ensures { result ≡ unsettled (record_of self.entry) }
    {
        matches!(self.state(), INIT | IN_PROGRESS)
    }

    // Its aborted packet if it is not settled, as the run's one entry; answers where the run ends.
    #[tactic(auto, using(crate::proofs::Packets::lengths))]
    fn put_aborted(self, run: &mut [u8]) -> usize
        requires { deadline_wake_room ≤ length run.old }
        ensures { Starts (aborted_of (record_of self.entry)) run.old result run.new }
    {
        if !self.is_unsettled() {
            return 0;
        }
        let label = self.label();
        run::put_header(
            run,
            0,
            &label.source,
            &label.destination,
            &label.id,
            header::FLAG_ABORTED,
        );
        run::PACKET + header::SIZE
    }
}

// The first deadline wake of the record that the link at byte `link` leads to marks it as timed out, the
// second drops it; answers where the run ends.
pub fn deadline_wake(send: &mut [u8], link: usize, run: &mut [u8]) -> usize
    requires { HeldAt role_send send.old link × (deadline_wake_room ≤ length run.old) }
    ensures { let b = send.old in
        let p = rec_in b link in
        let s = deadline_at (some p) (decode b) in
        Starts (deadline_out p) run.old result run.new × (send.new ≡ encode s) }
{
    let record = Leaving::at(send, link);
    if record.is_late() {
        release::drop(send, link);
        return 0;
    }
    let end = record.put_aborted(run);
    restate::time_out(send, link);
    end
}
