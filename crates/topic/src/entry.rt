// The entries of a rule book, as parts of its bytes: topic length (1), topic, subnet count (1), and subnets of 17 bytes, an
// address (16) and prefix bits (1).
ghost use Rattle.std.specs.Prelude.{◌≡◌, true, leb, option_map, length, drop};
ghost use Rattle.std.specs.Bool.{then_some};
ghost use Rattle.octets.specs.Octets.{same};
ghost use Rattle.topic.specs.Book.{entry_at, end_at, entries_from, uncut, fits, within};

use crate::same::is_same;
use crate::subnet::{ADDRESS_BYTES, PREFIX_MOST, contains};

// The bytes of a subnet.
const SUBNET_BYTES: usize = ADDRESS_BYTES + 1;

// A topic, and the subnets that may send to it.
#[derive(Clone, Copy)]
pub struct Entry<'a> {
    pub topic: &'a [u8],
    subnets: &'a [[u8; SUBNET_BYTES]],
}

impl<'a> Entry<'a> {
    ghost use Rattle.topic.specs.Held.{held_entry, held_first};

    // The entry at the front of the bytes and what stands behind it; none where the bytes end before it does.
    fn split(bytes: &'a [u8]) -> Option<(Entry<'a>, &'a [u8])>
        ensures { option_map held_first result
            ≡ then_some (leb (end_at bytes.now 0) (length bytes.now))
            (entry_at bytes.now 0, drop (end_at bytes.now 0) bytes.now) }
    {
        let (&size, rest) = bytes.split_first()?;
        let (topic, rest) = rest.split_at_checked(usize::from(size))?;
        let (&count, rest) = rest.split_first()?;
        let (subnets, rest) = rest.split_at_checked(SUBNET_BYTES * usize::from(count))?;
        let (subnets, _) = subnets.as_chunks();
        Some((Entry { topic, subnets }, rest))
    }

    // Whether it is the entry of the topic.
    pub fn is_of(&self, topic: &[u8]) -> bool
        ensures { result ≡ same (held_entry self.now).topic topic.now }
    {
        is_same(self.topic, topic)
    }

    // Whether each subnet has prefix bits to 128.
    pub fn fits(&self) -> bool
        ensures { result ≡ fits (held_entry self.now).subnets }
    {
        self.subnets
            .iter()
            .all(|subnet| subnet[ADDRESS_BYTES] <= PREFIX_MOST)
    }

    // Whether one of the subnets contains the source.
    pub fn admits(&self, source: &[u8; 16]) -> bool
        ensures { result ≡ within source.now (held_entry self.now).subnets }
    {
        self.subnets.iter().any(|subnet| contains(
            &subnet[..ADDRESS_BYTES],
            subnet[ADDRESS_BYTES],
            source,
        ))
    }
}

// Entries, one behind the other, from the first on. The bytes that are left are whole entries to their end. It is copied to
// go over them again.
#[derive(Clone, Copy)]
pub struct Entries<'a> {
    rest: &'a [u8],
    ghost whole: { uncut rest.now 0 ≡ true },
}

impl<'a> Entries<'a> {
    ghost use Rattle.topic.specs.Held.{held_entries};

    // The entries that the bytes are, if none is cut.
    #[tactic(auto, using(crate::proofs::Rest::splits))]
    pub fn read(bytes: &'a [u8]) -> Option<Entries<'a>>
        ensures { option_map held_entries result ≡ then_some (uncut bytes.now 0) (entries_from bytes.now 0) }
    {
        let mut rest = bytes;
        // no `for`: what does not split is asked about after the loop
        while let Some((_, behind)) = Entry::split(rest) {
            rest = behind;
        }
        if rest.is_empty() {
            Some(Entries { rest: bytes })
        } else {
            None
        }
    }
}

impl<'a> Iterator for Entries<'a> {
    ghost use Rattle.std.specs.Iterator.{YieldsFirstBy, item_count};
    ghost use Rattle.topic.specs.Held.{held_entry, held_entries};

    type Item = Entry<'a>;

    ghost next_gives = { YieldsFirstBy held_entry held_entries };

    ghost remaining = { item_count held_entries };

    #[tactic(auto, using(crate::proofs::Rest::splits))]
    fn next(&mut self) -> Option<Entry<'a>> {
        let (entry, behind) = Entry::split(self.rest)?;
        self.rest = behind;
        Some(entry)
    }
}
