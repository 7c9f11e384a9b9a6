// The done: how many pieces were sent, and the sum of the whole message.

ghost use Rattle.std.specs.Prelude.{◌≡◌, ◌+◌, ◌≤◌, length};
ghost use Rattle.octets.specs.Octets.{put};
ghost use Rattle.packet.specs.Frame.{id_size, sum_size, done_end};
ghost use Rattle.packet.specs.Outgoing.{done_packet};

use crate::header;

#[derive(Clone, Copy)]
pub struct MessageDone {}

impl MessageDone {
    pub const COUNT: usize = header::SIZE;

    pub const SUM: usize = Self::COUNT + 8;

    pub const SUM_SIZE: usize = 32;

    pub const SIZE: usize = Self::SUM + Self::SUM_SIZE;

    // A done packet, written at a.
    #[tactic(auto, using(crate::proofs::Writes::done_is))]
    pub fn put(run: &mut [u8], a: usize, id: &[u8], count: u64, sum: &[u8])
        requires { (length id.now ≡ id_size) × (length sum.now ≡ sum_size) × (a + done_end ≤ length run.old) }
        ensures { run.new
            ≡ put run.old a (done_packet id.now count sum.now) }
    {
        header::put(run, a, id, header::FLAG_DONE);
        octets::write::<8>(run, a + Self::COUNT, count);
        octets::copy_in(run, a + Self::SUM, sum);
    }
}
