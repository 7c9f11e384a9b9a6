// A leaving record gets another state where it stands: as acknowledgements tell it, or because its time is over.

ghost use Rattle.std.specs.Prelude.{◌≡◌, ◌+◌, ◌≤◌, length};
ghost use Rattle.machine.specs.Limits.{rec_bytes};
ghost use Rattle.machine.specs.Codes.{role_send, state_aborted};
ghost use Rattle.machine.specs.Layout.{encode, decode};
ghost use Rattle.machine.specs.Send.{change, with_state, timed_out};
ghost use Rattle.records.specs.HeldAt.{key_in, HeldAt};
ghost use Rattle.records.specs.Restating.{restated, over_state};

use crate::row::Row;
use rows::record;
use rows::record::Record;

// The state of a record whose time is over.
#[tactic(auto, unfolding(crate::specs::Restating::over_state))]
fn over(state: u8) -> u8
    ensures { result ≡ over_state state }
{
    if (state == record::INIT) | (state == record::IN_PROGRESS) {
        return record::ABORTED;
    }
    state
}

// State and timed-out mark are written in a row.
fn put_state(store: &mut [u8], row: usize, state: u8, out: u8)
    requires { row + rec_bytes ≤ length store.old }
    ensures { store.new ≡ restated row state out store.old }
{
    let marks = [state, out];
    octets::copy_in(store, row + Record::STATE, &marks);
}

// The held record whose link stands at byte `link` gets a state. States are the row's bytes, and the definitions' numbers:
// an enum of them would need one definition more, of its number.
#[tactic(auto, using(crate::specs::MetLaws::here, crate::specs::RestatedLaws::restates))]
pub fn set_state(store: &mut [u8], link: usize, state: u8)
    requires { HeldAt role_send store.old link × (state ≤ state_aborted) }
    ensures { let b = store.old in
        store.new ≡ encode (change (with_state state) (key_in b link) (decode b)) }
{
    let row = Row { store, link }.start();
    let out = store[row + Record::TIMED_OUT];
    put_state(store, row, state, out);
}

// The held record whose link stands at byte `link` gets the timed-out mark; if its state is not settled, it is aborted.
#[tactic(auto, using(crate::specs::MetLaws::here, crate::specs::RestatedLaws::restates))]
pub fn time_out(store: &mut [u8], link: usize)
    requires { HeldAt role_send store.old link }
    ensures { let b = store.old in
        store.new ≡ encode (change timed_out (key_in b link) (decode b)) }
{
    let row = Row { store, link }.start();
    let state = over(store[row + Record::STATE]);
    put_state(store, row, state, 1);
}
