// Which pieces of a record a wake sends, and in which order: PROTOCOL, "The tablet". The chain of pieces is
// walked once, and the first eight so far are kept in a line.
ghost use Rattle.std.specs.Prelude.{◌≡◌, length, take, Some};
ghost use Rattle.std.specs.List.{position, insert};
ghost use Rattle.machine.specs.Choice.{waiting, most_sent};
ghost use Rattle.outbox.specs.Line.{goes_before, put_in, line_of};

use crate::piece::rank;
use crate::record::Leaving;

// How many piece packets a wake sends at most.
pub const MOST: usize = 8;

// A piece that waits to be sent: its rank, a lower one first, and the place of its cell.
#[derive(Clone, Copy)]
pub struct Turn {
    pub rank: u64,
    pub place: usize,
}

// The pieces that a wake sends, in the order of sending; none behind the last one.
pub type Line = [Option<Turn>; MOST];

impl Turn {
    // Whether the piece goes before what stands in a place of the line: a piece of a higher rank, or none.
    fn goes_before(self, other: Option<Turn>) -> bool
        ensures { result ≡ goes_before self.rank other }
    {
        other.is_none_or(|other| self.rank < other.rank)
    }
}

// The first place of the line that the piece goes before; none if eight go before it.
fn place_of(line: &Line, turn: Turn) -> Option<usize>
    requires { length line.now ≡ most_sent }
    ensures { result ≡ position (goes_before turn.rank) line.now }
{
    line.iter().position(|other| turn.goes_before(*other))
}

// A piece comes into a place of the line: those from there on move up, and the last one goes. One by one: `rotate_right` would
// call `memmove`, which the archive for C would need from outside.
fn move_in(line: &mut Line, at: usize, turn: Turn)
    requires { length line.old ≡ most_sent }
    ensures { line.new ≡ take most_sent (insert line.old at (Some turn)) }
{
    let mut moved = Some(turn);
    for i in at..MOST {
        let old = line[i];
        line[i] = moved;
        moved = old;
    }
}

// A piece comes into the line: those that it goes before move up, and of nine the last one goes.
#[tactic(auto, using(crate::proofs::Lines::comes))]
fn put_in(line: &mut Line, turn: Turn)
    requires { length line.old ≡ most_sent }
    ensures { line.new ≡ put_in turn line.old }
{
    if let Some(at) = place_of(line, turn) {
        move_in(line, at, turn);
    }
}

impl<'a> Leaving<'a> {
    ghost use Rattle.outbox.specs.Left.{record_of};

    // The pieces that it sends.
    #[tactic(auto, using(crate::proofs::Choosing::choosing))]
    pub fn choose(self, clock: u64) -> Line
        ensures { result ≡ line_of (waiting clock (record_of self.entry).cells) }
    {
        let mut line = [None; MOST];
        for piece in self.pieces() {
            if let Some(rank) = rank(piece, clock) {
                let place = piece.place;
                put_in(&mut line, Turn { rank, place });
            }
        }
        line
    }
}
