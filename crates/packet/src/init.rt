// The init: how long the message is, and its topic.

ghost use Rattle.std.specs.Prelude.{◌≡◌, cond, ◌+◌, ◌<◌, ◌≤◌, length};
ghost use Rattle.octets.specs.Octets.{put};
ghost use Rattle.packet.specs.Frame.{init_flag, reply_flag, id_size, init_topic_at};
ghost use Rattle.packet.specs.Outgoing.{init_packet};

use crate::header;

#[derive(Clone, Copy)]
pub struct MessageInit {}

impl MessageInit {
    pub const LENGTH: usize = header::SIZE;

    pub const TOPIC_LENGTH: usize = Self::LENGTH + 8;

    pub const TOPIC: usize = Self::TOPIC_LENGTH + 1;

    // The flag byte of an init.
    fn flags(reply: bool) -> u8
        ensures { result ≡ cond reply (init_flag + reply_flag) init_flag }
    {
        if reply {
            header::FLAG_INIT | header::FLAG_REPLY
        } else {
            header::FLAG_INIT
        }
    }

    // An init packet, written at a.
    #[tactic(auto, using(crate::proofs::Writes::init_is))]
    pub fn put(run: &mut [u8], a: usize, id: &[u8], reply: bool, size: u64, topic: &[u8])
        requires { (length id.now ≡ id_size)
            × (length topic.now < 256)
            × (a + init_topic_at + length topic.now ≤ length run.old) }
        ensures { run.new
            ≡ put run.old a (init_packet id.now reply size topic.now) }
    {
        header::put(run, a, id, Self::flags(reply));
        octets::write::<8>(run, a + Self::LENGTH, size);
        octets::copy_in(run, a + Self::TOPIC_LENGTH, &[topic.len() as u8]);
        octets::copy_in(run, a + Self::TOPIC, topic);
    }
}
