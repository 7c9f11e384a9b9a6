// The queue in a buffer: packets are put out at its end, each by its letter, and the first is read at its
// start.

ghost use Rattle.std.specs.Prelude.{◌≡◌, ◌∷◌, ◌+◌, ◌*◌, ◌<◌, ◌≤◌, length, drop};
ghost use Rattle.octets.specs.Octets.{put};
ghost use Rattle.link.specs.Entries.{entries_of};
ghost use Rattle.link.specs.Link.{copies, next_letter, through};
ghost use Rattle.link.specs.Stored.{stored_entry, stored, Waits};

use crate::entry::Entries;
use octets::{copy_in, read, write};

// Where the queue ends, and the letters to come.
#[derive(Clone, Copy)]
pub struct Mark<'a> {
    pub tail: usize,
    pub letters: &'a [u8],
}

// The letter of the next packet, D past the end, and those to come.
fn next_letter(letters: &[u8]) -> (u8, &[u8])
    ensures { (result.0 ≡ next_letter letters.now) × (result.1.now ≡ drop 1 letters.now) }
{
    match letters {
        [letter, rest @ ..] => (*letter, rest),
        [] => (b'D', letters),
    }
}

// An entry is kept at the end of the queue; answers where the queue ends now.
fn keep(queue: &mut [u8], tail: usize, e: &[u8]) -> usize
    requires { (tail + (2 + length e.now) ≤ length queue.old) × (length e.now < 65536) }
    ensures { (queue.new ≡ put queue.old tail (stored_entry e.now))
        × (result ≡ tail + (2 + length e.now)) }
{
    write::<2>(queue, tail, e.len() as u64);
    copy_in(queue, tail + 2, e);
    tail + 2 + e.len()
}

// A packet is put out: by its letter it is kept never, once or twice.
fn put_out<'a>(queue: &mut [u8], mark: Mark<'a>, e: &[u8]) -> Mark<'a>
    requires { (mark.tail + 2 * (2 + length e.now) ≤ length queue.old) × (length e.now < 65536) }
    ensures { let out = stored (copies (next_letter mark.entry.letters.now) e.now) in
        (queue.new ≡ put queue.old mark.entry.tail out)
        × (result.tail ≡ mark.entry.tail + length out)
        × (result.letters.now ≡ drop 1 mark.entry.letters.now) }
{
    let (letter, letters) = next_letter(mark.letters);
    if letter == b'L' {
        return Mark { letters, ..mark };
    }
    let once = keep(queue, mark.tail, e);
    if letter != b'R' {
        return Mark {
            tail: once,
            letters,
        };
    }
    let twice = keep(queue, once, e);
    Mark {
        tail: twice,
        letters,
    }
}

// The packets of a run are put out.
pub fn put_all<'a>(queue: &mut [u8], mark: Mark<'a>, run: &[u8]) -> Mark<'a>
    requires { (mark.tail + 2 * length (stored (entries_of run.now)) ≤ length queue.old)
        × (length run.now < 65536) }
    ensures { let es = entries_of run.now in
        let out = stored (through es mark.entry.letters.now) in
        (queue.new ≡ put queue.old mark.entry.tail out)
        × (result.tail ≡ mark.entry.tail + length out)
        × (result.letters.now ≡ drop (length es) mark.entry.letters.now) }
{
    let mut end = mark;
    for entry in Entries(run) {
        end = put_out(queue, end, entry);
    }
    end
}

// How long the first entry of the queue is.
pub fn first_size(queue: &[u8], head: usize) -> usize
    requires { head + 2 ≤ length queue.now }
    ensures { (tail : _) (e : _) (q : _) → Waits queue.now head tail (e ∷ q) → result ≡ length e }
{
    read::<2>(queue, head) as usize
}
