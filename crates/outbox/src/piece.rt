// A piece: when its turn comes, and how it is sent: it becomes a chunk of the run, and its cell is stamped.
ghost use Rattle.std.specs.Prelude.{◌≡◌, ◌+◌, ◌≤◌, leb, length, get_or};
ghost use Rattle.octets.specs.Octets.{put};
ghost use Rattle.packet.specs.Named.{Named};
ghost use Rattle.machine.specs.Limits.{resend_after};
ghost use Rattle.machine.specs.Layout.{count_at, read_cell};
ghost use Rattle.soundness.specs.Places.{piece_of};
ghost use Rattle.machine_writes.specs.Links.{Links};
ghost use Rattle.outbox.specs.Line.{ranked};
ghost use Rattle.outbox.specs.Sending.{chunk_of, chunk_front, Ready, Sends};

use packet::chunk::MessageChunk;
use packet::label::Label;
use packet::run;
use pieces::row::mark;
use rows::cell;
use rows::cell::{SENT, STARTED};
use rows::message::CUT;
use soundness::pieces::Piece;

// A piece is sent again after so many milliseconds.
const RESEND_AFTER: u64 = 100;

// Whether that time has passed since the stamp; a clock gone back means no.
fn passed(stamp: u64, clock: u64) -> bool
    ensures { result ≡ leb (stamp + resend_after) clock }
{
    clock.saturating_sub(stamp) >= RESEND_AFTER
}

// The rank of a piece if it is sent now, a lower one first: 0 if it is Started, one more than its stamp if it
// is due.
#[tactic(auto, using(crate::proofs::Ranks::ranks))]
pub fn rank(piece: Piece<'_>, clock: u64) -> Option<u64>
    ensures { result ≡ ranked clock (piece_of piece.entry) }
{
    match piece.state() {
        STARTED => Some(0),
        SENT if passed(piece.stamp(), clock) => Some(piece.stamp() + 1),
        _ => None,
    }
}

// The piece, as a chunk at the start of what is left of the run; answers how long it is.
#[tactic(auto, using(crate::proofs::Chunks::chunk_long))]
fn put_piece(piece: Piece<'_>, label: &Label, run: &mut [u8]) -> usize
    requires { Named label.now × (chunk_front + length (piece_of piece).bytes ≤ length run.old) }
    ensures { let chunk = chunk_of label.now (piece_of piece.entry) in
        (result ≡ length chunk) × (result ≤ length run.old) × (run.new ≡ put run.old 0 chunk) }
{
    let bytes = piece.bytes();
    let index = piece.index();
    let position = run::Position {
        index,
        offset: CUT * index,
    };
    run::put_chunk(
        run,
        0,
        &label.source,
        &label.destination,
        &label.id,
        position,
        bytes,
    );
    run::PACKET + MessageChunk::PIECE + bytes.len()
}

// The piece in the cell at a place.
#[tactic(auto, using(crate::proofs::Chunks::cells))]
fn piece_at(send: &[u8], place: usize) -> Piece<'_>
    requires { let b = send.now in
        Links b × (1 ≤ place) × (place ≤ get_or b count_at 0) }
    ensures { piece_of result ≡ read_cell send.now place }
{
    let start = cell::cell_at(place);
    let row = &send[start..start + cell::BYTES];
    Piece { place, row }
}

// The piece in the cell at a place, sent and stamped; answers how long its chunk is.
#[tactic(auto, using(pieces::specs::ReadLaws::cell_in))]
pub fn send_piece(send: &mut [u8], place: usize, label: &Label, clock: u64, run: &mut [u8]) -> usize
    requires { Ready send.old label.now place (length run.old) }
    ensures { let b = send.old in
        Sends clock label.now place b run.old result send.new run.new }
{
    let end = put_piece(piece_at(send, place), label, run);
    mark(send, place, clock, SENT);
    end
}
