// The init of a record, sent again until it is acknowledged.
ghost use Rattle.std.specs.Prelude.{◌≤◌, length};
ghost use Rattle.machine.specs.Send.{init_out};
ghost use Rattle.machine.specs.Wake.{send_wake_room};
ghost use Rattle.outbox.specs.Sending.{Starts};

use crate::record::Leaving;
use packet::init::MessageInit;
use packet::run;

impl<'a> Leaving<'a> {
    ghost use Rattle.outbox.specs.Left.{record_of};

    // Its init, as the run's one entry; answers where it ends.
    #[tactic(auto, using(crate::proofs::Packets::lengths))]
    pub fn put_init(self, run: &mut [u8]) -> usize
        requires { send_wake_room ≤ length run.old }
        ensures { Starts (init_out (record_of self.entry).label) run.old result run.new }
    {
        let topic = self.topic();
        run::put_init(run, 0, self.label(), topic);
        run::PACKET + MessageInit::TOPIC + topic.len()
    }
}
