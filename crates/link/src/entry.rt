// The entries of a run, one after the other, and an entry's parts as the packet call takes them.
// Any bytes will do: what is missing of an address counts as 0, and a frame is what is there.

ghost use Rattle.std.specs.Prelude.{◌≡◌, ◌<◌, ◌≤◌, length, get_or, eqb};
ghost use Rattle.octets.specs.Octets.{part};
ghost use Rattle.packet.specs.Frame.{address_size};
ghost use Rattle.link.specs.Entries.{entry_end, entries_of, filled, from_of, to_of, frame_of};
ghost use Rattle.link.specs.Stored.{Ends};

use octets::copy_in;

const FROM: usize = 2;

const TO: usize = 18;

const PACKET: usize = 34;

const ADDRESS: usize = 16;

// The byte at a, 0 past the end.
fn byte(s: &[u8], a: usize) -> usize
    ensures { (result ≡ get_or s.now a 0) × (result < 256) }
{
    usize::from(s.get(a).copied().unwrap_or(0))
}

// Where the first entry of a run ends, if the run goes that far.
fn entry_end(run: &[u8]) -> usize
    ensures { result ≡ entry_end run.now }
{
    PACKET + (256 * byte(run, 0) + byte(run, 1))
}

// Where it ends in the run.
fn first_end(run: &[u8]) -> usize
    ensures { Ends run.now result }
{
    entry_end(run).min(run.len())
}

// What is left of a run: its entries, each in turn.
#[derive(Clone, Copy)]
pub struct Entries<'a>(pub &'a [u8]);

impl<'a> Iterator for Entries<'a> {
    ghost use Rattle.std.specs.Iterator.{YieldsFirstRef, item_count};

    type Item = &'a [u8];

    ghost next_gives = { YieldsFirstRef (λ s. entries_of s.0.now) };

    ghost remaining = { item_count (λ s. entries_of s.0.now) };

    #[tactic(auto, using(crate::proofs::Runs::steps))]
    fn next(&mut self) -> Option<&'a [u8]> {
        if self.0.is_empty() {
            return None;
        }
        let (entry, behind) = self.0.split_at(first_end(self.0));
        self.0 = behind;
        Some(entry)
    }
}

// Whether an entry has all its bytes: the last of a run may be cut off.
pub fn is_whole(e: &[u8]) -> bool
    ensures { result ≡ eqb (length e.now) (entry_end e.now) }
{
    e.len() == entry_end(e)
}

// At most n bytes from a on.
fn part(s: &[u8], a: usize, n: usize) -> &[u8]
    requires { (a ≤ 18) × (n ≤ 16) }
    ensures { result.now ≡ part s.now a n }
{
    &s[a.min(s.len())..(a + n).min(s.len())]
}

// The address at a place of an entry.
fn address(e: &[u8], at: usize) -> [u8; ADDRESS]
    requires { at ≤ 18 }
    ensures { result ≡ filled address_size (part e.now at address_size) }
{
    let mut out = [0u8; ADDRESS];
    copy_in(&mut out, 0, part(e, at, ADDRESS));
    out
}

// Whom the packet comes from.
pub fn from_of(e: &[u8]) -> [u8; ADDRESS]
    ensures { result ≡ from_of e.now }
{
    address(e, FROM)
}

// Whom it goes to.
pub fn to_of(e: &[u8]) -> [u8; ADDRESS]
    ensures { result ≡ to_of e.now }
{
    address(e, TO)
}

// The packet, as the frame that came.
pub fn frame_of(e: &[u8]) -> &[u8]
    ensures { result.now ≡ frame_of e.now }
{
    &e[PACKET.min(e.len())..]
}
