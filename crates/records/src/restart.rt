// A held id starts again with no pieces: its record keeps its place, and its cells are freed.

ghost use Rattle.std.specs.Prelude.{◌≡◌};
ghost use Rattle.std.proofs.Math.Option.{some};
ghost use Rattle.machine.specs.Codes.{role_receive};
ghost use Rattle.machine.specs.Layout.{encode, decode};
ghost use Rattle.machine.specs.Receive.{init_at};
ghost use Rattle.records.specs.HeldAt.{rec_in, key_in, HeldAt};
ghost use Rattle.machine_steps.specs.LabelFine.{LabelFine};
ghost use Rattle.records.specs.Opening.{new_label};

use crate::open::Times;
use crate::row::Row;
use crate::{clear, open, row};
use packet::label::Label;
use rows::record::Record;

// The held record whose link stands at byte `link` starts again, with what an init of its own key says.
#[tactic(auto, using(crate::specs::MetLaws::here, crate::specs::OpenedLaws::opens, crate::specs::RestartedLaws::restarts))]
pub fn restart(store: &mut [u8], link: usize, label: Label, topic: &[u8])
    requires { HeldAt role_receive store.old link
        × (label.id ≡ key_in store.old link)
        × LabelFine (new_label label topic.now) }
    ensures { let b = store.old in
        store.new ≡ encode (init_at (some (rec_in b link)) (new_label label topic.now) (decode b)) }
{
    let row = Row { store, link }.start();
    let first = store[row + Record::FIRST_CELL];
    let times = Times { created: 0, end: 0 };
    open::put_row(store, row, row::ARRIVING, 0, label, topic, times);
    clear::clear(store, usize::from(first));
}
