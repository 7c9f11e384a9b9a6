// Done: all pieces were sent. The message is whole where they are all there and their sum is the sender's.

ghost use Rattle.std.specs.Prelude.{◌≡◌};
ghost use Rattle.std.proofs.Math.Option.{some};
ghost use Rattle.answer.specs.Results.{answered};
ghost use Rattle.machine.specs.Codes.{yes};
ghost use Rattle.machine.specs.Layout.{decode};
ghost use Rattle.machine.specs.Receive.{found, done_step};
ghost use Rattle.machine.specs.Refusals.{refusal};
ghost use Rattle.machine.specs.Packet.{done_row};
ghost use Rattle.records.specs.HeldAt.{rec_in, Receives};
ghost use Rattle.records.specs.Step.{stepped};

use answer::Refusal;
use pieces::walk;
use records::find::{Held, Store};
use rows::head::RECEIVE;

// Rows 13 to 17: the refusal of a done of a held record.
#[tactic(auto, unfolding(machine::specs::Layout::rec_of), using(records::specs::RefuseLaws::rows))]
fn refusal(held: Held<'_, RECEIVE>, count: u64, sum: &[u8], known: u64) -> Result<(), Refusal>
    ensures { let r = held.entry.row in
        answered result
        ≡ refusal (done_row count sum.now (yes known) (some (rec_in r.store.now r.link))) }
{
    let slots = held.row.slots();
    if count != slots {
        return Err(Refusal::Count);
    }
    if walk::count(held.pieces()) != slots {
        return Err(Refusal::Gap);
    }
    if walk::size(held.pieces()) != held.row.total() {
        return Err(Refusal::Total);
    }
    if !octets::equal(sum, &walk::sum(held.pieces())) {
        return Err(Refusal::Sum);
    }
    if known == 0 {
        return Err(Refusal::NoKey);
    }
    Ok(())
}

// Done: the refusal, or the store with the message whole.
pub fn done(recv: &mut [u8], id: &[u8], count: u64, sum: &[u8], known: u64) -> Result<(), Refusal>
    requires { Receives recv.old }
    ensures { let b = recv.old in
        let k = id.now in
        let s = decode b in
        record { number = answered result; store = recv.new }
        ≡ stepped (refusal (done_row count sum.now (yes known) (found k s.held))) (done_step k s) b }
{
    let Some(held) = (Store::<'_, RECEIVE> { bytes: recv }).find(id) else {
        return Err(Refusal::UnknownId);
    };
    refusal(held, count, sum, known)?;
    let link = held.row.link;
    records::finish::finish(recv, link);
    Ok(())
}
