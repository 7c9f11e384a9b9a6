// The done of a record: it is sent once every piece is acknowledged, with the sum of all pieces.
ghost use Rattle.std.specs.Prelude.{◌≡◌, ◌≤◌, length};
ghost use Rattle.machine.specs.Send.{all_acked, done_out};
ghost use Rattle.machine.specs.Wake.{send_wake_room};
ghost use Rattle.outbox.specs.Sending.{Starts};

use crate::record::Leaving;
use packet::done::MessageDone;
use packet::run;
use pieces::walk;
use rows::cell::ACKED;

impl<'a> Leaving<'a> {
    ghost use Rattle.outbox.specs.Left.{record_of};

    // Whether every piece is acknowledged: as many as the record has slots.
    #[tactic(auto, using(crate::specs::AckedLaws::acked_is))]
    pub fn all_acked(self) -> bool
        ensures { result ≡ all_acked (record_of self.entry).cells }
    {
        walk::count_state(self.pieces(), ACKED) == self.slots()
    }

    // Its done, as the run's one entry; answers where it ends. The record stays as it is: its state changes
    // when the done is acknowledged.
    #[tactic(auto, using(crate::proofs::Packets::lengths))]
    pub fn put_done(self, run: &mut [u8]) -> usize
        requires { send_wake_room ≤ length run.old }
        ensures { Starts (done_out (record_of self.entry)) run.old result run.new }
    {
        let label = self.label();
        let sum = walk::sum(self.pieces());
        run::put_done(
            run,
            0,
            &label.source,
            &label.destination,
            &label.id,
            self.slots(),
            &sum,
        );
        run::PACKET + MessageDone::SIZE
    }
}
