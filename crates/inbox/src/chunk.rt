// Chunk: a piece of a message comes.

ghost use Rattle.std.specs.Prelude.{◌≡◌, ◌+◌, ◌≤◌, length, leb};
ghost use Rattle.answer.specs.Results.{answered};
ghost use Rattle.packet.specs.Frame.{largest_piece};
ghost use Rattle.machine.specs.Limits.{longest};
ghost use Rattle.machine.specs.Layout.{decode};
ghost use Rattle.machine.specs.Receive.{found, chunk_step};
ghost use Rattle.machine.specs.Refusals.{refusal};
ghost use Rattle.machine.specs.Packet.{chunk_row, too_short, piece_row, cell_row};
ghost use Rattle.records.specs.HeldAt.{rec_in, Receives};
ghost use Rattle.records.specs.Step.{stepped};

use crate::share;
use answer::Refusal;
use pieces::held::PieceLink;
use records::find::{Held, Store};
use rows::head::RECEIVE;
use rows::{message, record};

// Row 9: whether the piece ends inside the message.
fn fits(offset: u64, size: u64, total: u64) -> bool
    ensures { result ≡ leb (offset + size) total }
{
    offset <= total && size <= total - offset
}

// Row 11: whether the piece, which ends inside the message, is too short for where it stands.
#[tactic(auto, unfolding(machine::specs::Packet::too_short))]
fn too_short(total: u64, index: u64, offset: u64, size: u64) -> bool
    requires { (total ≤ longest) × (offset + size ≤ total) }
    ensures { result ≡ too_short total index offset size }
{
    (size < message::LEAST) & (index != message::top(total)) & (offset + size != total)
}

// Rows 28 and 12: a piece at a new index needs a cell, of its source's share and of those that are free.
#[tactic(auto, unfolding(machine::specs::Layout::rec_of), using(records::specs::RefuseLaws::rows))]
fn cell_refusal(at: PieceLink<'_, RECEIVE>) -> Result<(), Refusal>
    ensures { let b = at.entry.held.row.store.now in
        answered result ≡ refusal (cell_row at.entry.index (decode b) (rec_in b at.entry.held.row.link)) }
{
    if at.is_taken() {
        return Ok(());
    }
    let row = at.held.row;
    let store = Store::<'_, RECEIVE> { bytes: row.store };
    if share::of_source(store, row.source()) >= record::MOST_OF_SOURCE {
        return Err(Refusal::SourceFull);
    }
    if !store.is_free_cell() {
        return Err(Refusal::NoCell);
    }
    Ok(())
}

// Rows 9 to 11: the refusal of a chunk of a held record.
#[tactic(auto, unfolding(machine::specs::Layout::rec_of), using(records::specs::RefuseLaws::rows, records::specs::MetLaws::here))]
fn refusal(held: Held<'_, RECEIVE>, index: u64, offset: u64, size: u64) -> Result<(), Refusal>
    ensures { let r = held.entry.row in
        answered result ≡ refusal (piece_row index offset size (rec_in r.store.now r.link)) }
{
    let total = held.row.total();
    if !fits(offset, size, total) {
        return Err(Refusal::PastEnd);
    }
    if index > message::top(total) {
        return Err(Refusal::HighIndex);
    }
    if too_short(total, index, offset, size) {
        return Err(Refusal::ShortPiece);
    }
    Ok(())
}

// Chunk: the refusal, or the store with the piece in it.
pub fn chunk(
    recv: &mut [u8],
    id: &[u8],
    index: u64,
    offset: u64,
    piece: &[u8],
) -> Result<(), Refusal>
    requires { Receives recv.old × (length piece.now ≤ largest_piece) }
    ensures { let b = recv.old in
        let k = id.now in
        let p = piece.now in
        let s = decode b in
        record { number = answered result; store = recv.new }
        ≡ stepped (refusal (chunk_row index offset (length p) s (found k s.held))) (chunk_step k index p s) b }
{
    let Some(held) = (Store::<'_, RECEIVE> { bytes: recv }).find(id) else {
        return Err(Refusal::UnknownId);
    };
    refusal(held, index, offset, piece.len() as u64)?;
    let at = PieceLink::find(held, index);
    cell_refusal(at)?;
    let (link, spot) = (held.row.link, at.at);
    pieces::insert::put_piece(recv, link, spot, index, piece);
    Ok(())
}
