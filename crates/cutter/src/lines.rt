// The lines of a list of cuts. The recursion follows the definition `grow`: a size ends and the next begins, or
// it grows by a unit.
// A text is a buffer and a place in it: memory is fixed, and a contract says what is put at that place.

ghost use Rattle.std.specs.Prelude.{◌++◌, ◌+◌, ◌≤◌, length};
ghost use Rattle.cutter.specs.Text.{item};
ghost use Rattle.cutter.specs.Fronts.{Wrote, growing, Room};

use octets::copy_in;
use script::put_item;

// Sizes are multiples of 250 up to 1,250.
pub const UNIT: usize = 250;

const LARGEST: usize = 1250;

// The bytes of the longest front of a line: eleven times `250` and a blank.
const FRONT: usize = 44;

// A front, a number and the byte behind it, written at `at`; answers where they end.
fn put_behind(text: &mut [u8], at: usize, front: &[u8], n: usize, end: u8) -> usize
    requires { at + length (front.now ++ item n end) ≤ length text.old }
    ensures { Wrote text.old at (front.now ++ item n end) text.new result }
{
    copy_in(text, at, front);
    put_item(text, at + front.len(), n, end)
}

// All lines behind a front, where a piece of that size may grow and so many units are left, written at `at`;
// answers where they end.
pub fn put_cuts(text: &mut [u8], at: usize, front: &[u8], size: usize, left: usize) -> usize
    requires { Room front.now size left text.old at }
    ensures { Wrote text.old at (growing front.now size left) text.new result }
{
    if left == 0 {
        return put_behind(text, at, front, size, b'\n');
    }
    let mut longer = [0u8; FRONT];
    let n = put_behind(&mut longer, 0, front, size, b' ');
    let end = put_cuts(text, at, &longer[..n], UNIT, left - 1);
    if size < LARGEST {
        return put_cuts(text, end, front, size + UNIT, left - 1);
    }
    end
}
