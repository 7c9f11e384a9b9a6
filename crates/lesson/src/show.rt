// What is shown for an input.

ghost use Rattle.std.specs.Prelude.{◌≡◌, ◌≤◌, length, take};
ghost use Rattle.machine.specs.Limits.{longest};
ghost use Rattle.lesson.specs.Text.{lesson_of};
ghost use Rattle.lesson.specs.Classroom.{classroom_of};

use crate::room::Room;
use crate::text;
use script::Script;

// The most bytes of text: 51 lines of 20.
pub const TEXT: usize = 1020;

// The lines for a survey of n bytes over a link with these letters; answers where the last ends.
fn lesson(n: usize, letters: &[u8], lines: &mut [u8]) -> usize
    requires { (n ≤ longest) × (1020 ≤ length lines.old) }
    ensures { (take result lines.new ≡ lesson_of n letters.now) × (result ≤ 1020) }
{
    let mut room = Room::fresh(letters);
    room.push(n);
    let end = text::put_line(lines, 0, 0, &room.nodes.tablet.send);
    text::put_rounds(&mut room, lines, end)
}

// What is printed for what was read; answers how long it is.
pub fn classroom(input: &[u8], lines: &mut [u8; TEXT]) -> usize
    ensures { (take result lines.new ≡ classroom_of input.now)
        × (result ≤ length lines.new) }
{
    match script::parse(input) {
        Some(Script { length, letters }) => lesson(length, letters, lines),
        None => 0,
    }
}
