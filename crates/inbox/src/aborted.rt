// Aborted: the sender has given up.

ghost use Rattle.std.specs.Prelude.{◌≡◌};
ghost use Rattle.answer.specs.Results.{answered};
ghost use Rattle.machine.specs.Layout.{decode};
ghost use Rattle.machine.specs.Receive.{found, drop_step};
ghost use Rattle.machine.specs.Refusals.{refusal, held_row};
ghost use Rattle.records.specs.HeldAt.{Receives};
ghost use Rattle.records.specs.Step.{stepped};

use answer::Refusal;
use records::find::Store;
use rows::head::RECEIVE;

// Aborted: the refusal, or the store without the arriving record.
pub fn abort(recv: &mut [u8], id: &[u8]) -> Result<(), Refusal>
    requires { Receives recv.old }
    ensures { let b = recv.old in
        let k = id.now in
        let s = decode b in
        record { number = answered result; store = recv.new }
        ≡ stepped (refusal (held_row (found k s.held))) (drop_step k s) b }
{
    let Some(held) = (Store::<'_, RECEIVE> { bytes: recv }).find(id) else {
        return Err(Refusal::UnknownId);
    };
    let link = held.row.link;
    records::release::drop(recv, link);
    Ok(())
}
