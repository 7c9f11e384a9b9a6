// What is printed: lines of five numbers.
// A text is a buffer and a place in it: memory is fixed, and a contract says what is put at that place.

ghost use Rattle.std.specs.Prelude.{◌≡◌, ◌++◌, ◌+◌, ◌*◌, ◌≤◌, length, take};
ghost use Rattle.octets.specs.Octets.{put};
ghost use Rattle.lesson.specs.Text.{item, line_of, lines_from, rounds};
ghost use Rattle.lesson.specs.Steps.{at_rest};

use crate::room::Room;
use crate::run;

const ROUNDS: u8 = 50;

// A number in decimal and the byte behind it, written at `at`; answers where they end.
fn put_item(text: &mut [u8], at: usize, n: u8, end: u8) -> usize
    requires { at + 4 ≤ length text.old }
    ensures { (text.new ≡ put text.old at (item n end))
        × (result ≡ at + length (item n end))
        × (result ≤ at + 4) }
{
    script::put_item(text, at, usize::from(n), end)
}

// The line of round k, of what is reported on the survey in a send store.
pub fn put_line(text: &mut [u8], at: usize, k: u8, send: &[u8]) -> usize
    requires { at + 20 ≤ length text.old }
    ensures { (text.new ≡ put text.old at (line_of k send.now))
        × (result ≡ at + length (line_of k send.now))
        × (result ≤ at + 20) }
{
    let mut report = [0u8; 44];
    let _ = message::report(send, &run::ID, &mut report);
    let a = put_item(text, at, k, b' ');
    let b = put_item(text, a, report[16], b' ');
    let c = put_item(text, b, report[17], b' ');
    let d = put_item(text, c, report[18], b' ');
    put_item(text, d, report[19], b'\n')
}

// The rounds, and the line of each; answers where the last ends.
pub fn put_rounds(room: &mut Room<'_>, text: &mut [u8], at: usize) -> usize
    requires { at + 20 * rounds ≤ length text.old }
    ensures { (take result text.new
        ≡ take at text.old ++ lines_from rounds 1 (at_rest room.old))
        × (result ≤ at + 20 * rounds) }
{
    let mut end = at;
    for k in 1..=ROUNDS {
        room.round(k);
        end = put_line(text, end, k, &room.nodes.tablet.send);
    }
    end
}
