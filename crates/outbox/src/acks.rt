// Acknowledgements and the read: the office tells how far it is. Document 01: "Ack init 0 to 1, ack done 1 to
// 2, read 2 to 3; ack chunk needs 1 and marks its piece Acked. Any other state is 18."
ghost use Rattle.std.specs.Prelude.{◌≡◌, ◌≤◌};
ghost use Rattle.answer.specs.Results.{answered};
ghost use Rattle.machine.specs.Codes.{state_aborted};
ghost use Rattle.machine.specs.Layout.{decode};
ghost use Rattle.machine.specs.Receive.{found};
ghost use Rattle.machine.specs.Refusals.{refusal};
ghost use Rattle.machine.specs.Send.{change, with_state, ack_piece};
ghost use Rattle.machine.specs.Packet.{state_row, ack_chunk_row};
ghost use Rattle.records.specs.HeldAt.{Sends};
ghost use Rattle.records.specs.Step.{stepped};

use crate::record::Leaving;
use answer::Refusal;
use pieces::walk;
use records::find::Store;
use records::restate;
use rows::head::SEND;
use rows::record::IN_PROGRESS;

// Ack init, ack done and read: the refusal, or the store with the record in its next state. States are the
// bytes that a record has, as callers name them.
#[tactic(auto, unfolding(machine::specs::Refusals::refusal))]
pub fn advance(send: &mut [u8], id: &[u8], state: u8, next: u8) -> Result<(), Refusal>
    requires { Sends send.old × (next ≤ state_aborted) }
    ensures { let b = send.old in
        let k = id.now in
        let s = decode b in
        record { number = answered result; store = send.new }
        ≡ stepped (refusal (state_row state (found k s.held))) (change (with_state next) k s) b }
{
    let store = Store::<'_, SEND> { bytes: send };
    let Some(record) = Leaving::find(store, id) else {
        return Err(Refusal::UnknownId);
    };
    if record.state() != state {
        return Err(Refusal::WrongState);
    }
    let link = record.held.row.link;
    restate::set_state(send, link, next);
    Ok(())
}

// Ack chunk: the refusal, or the store with the piece acknowledged.
#[tactic(auto, unfolding(machine::specs::Refusals::refusal))]
pub fn ack_chunk(send: &mut [u8], id: &[u8], index: u64) -> Result<(), Refusal>
    requires { Sends send.old }
    ensures { let b = send.old in
        let k = id.now in
        let s = decode b in
        record { number = answered result; store = send.new }
        ≡ stepped (refusal (ack_chunk_row index (found k s.held))) (change (ack_piece index) k s) b }
{
    let store = Store::<'_, SEND> { bytes: send };
    let Some(record) = Leaving::find(store, id) else {
        return Err(Refusal::UnknownId);
    };
    if record.state() != IN_PROGRESS {
        return Err(Refusal::WrongState);
    }
    if index >= walk::count(record.pieces()) {
        return Err(Refusal::NoSuchPiece);
    }
    let link = record.held.row.link;
    pieces::ack::ack(send, link, index);
    Ok(())
}
