// The pieces that a wake sends, as chunks of the run.
ghost use Rattle.std.specs.Prelude.{◌≡◌, ◌≤◌, length};
ghost use Rattle.machine.specs.Codes.{role_send};
ghost use Rattle.machine.specs.Layout.{decode};
ghost use Rattle.machine.specs.Choice.{chosen};
ghost use Rattle.machine.specs.Send.{change, chunks_out, with_stamps};
ghost use Rattle.machine.specs.Wake.{send_wake_room};
ghost use Rattle.records.specs.HeldAt.{rec_in, key_in, HeldAt};
ghost use Rattle.outbox.specs.Sending.{Wakes};

use crate::piece::send_piece;
use crate::record::Leaving;

// What a wake put into the run: where it ends, and how many piece packets it has.
#[derive(Clone, Copy)]
pub struct Sent {
    pub end: usize,
    pub pieces: u64,
}

impl Sent {
    // Nothing.
    pub const NOTHING: Sent = Sent { end: 0, pieces: 0 };
}

// The pieces that the record which the link at byte `link` leads to sends, as chunks at the start of the run,
// each one stamped.
pub fn send_due(send: &mut [u8], link: usize, clock: u64, run: &mut [u8]) -> Sent
    requires { HeldAt role_send send.old link × (send_wake_room ≤ length run.old) }
    ensures { let b = send.old in
        let those = chosen clock (rec_in b link).cells in
        let s = change (with_stamps clock those) (key_in b link) (decode b) in
        let sent = chunks_out (rec_in b link).label those in
        Wakes s sent those run.old result.end result.pieces send.new run.new }
{
    let record = Leaving::at(send, link);
    let label = record.label();
    let line = record.choose(clock);
    let mut sent = Sent::NOTHING;
    for turn in line {
        let Some(turn) = turn else {
            return sent;
        };
        sent.end += send_piece(send, turn.place, &label, clock, &mut run[sent.end..]);
        sent.pieces += 1;
    }
    sent
}
