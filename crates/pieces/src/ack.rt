// A piece of a leaving record is acknowledged.
ghost use Rattle.std.specs.Prelude.{◌≡◌, ◌<◌, length};
ghost use Rattle.machine.specs.Codes.{role_send};
ghost use Rattle.machine.specs.Layout.{encode, decode};
ghost use Rattle.machine.specs.Send.{ack_piece, change};
ghost use Rattle.records.specs.HeldAt.{rec_in, key_in, HeldAt};

use crate::held::PieceLink;
use crate::row::mark;
use records::find::Held;
use records::row::Row;
use rows::cell::ACKED;
use rows::head::SEND;

// The piece at an index of the held record whose link stands at byte `link` becomes Acked.
#[tactic(auto, using(records::specs::MetLaws::here))]
pub fn ack(store: &mut [u8], link: usize, index: u64)
    requires { HeldAt role_send store.old link × (index < length (rec_in store.old link).cells) }
    ensures { let b = store.old in
        store.new ≡ encode (change (ack_piece index) (key_in b link) (decode b)) }
{
    let held = Held::<'_, SEND> {
        row: Row { store, link },
    };
    let at = PieceLink::find(held, index).at;
    let place = usize::from(store[at]);
    mark(store, place, 0, ACKED);
}
