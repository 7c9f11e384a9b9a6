// A whole rule book: byte 0, then entries to the end. A cut entry is found first; after that every entry lies within the book.
ghost use Rattle.std.specs.Prelude.{◌≡◌, option_map};
ghost use Rattle.std.specs.Bool.{then_some};
ghost use Rattle.topic.specs.Book.{book_of, all_fit, listed, distinct, well_formed, admitted};
ghost use Rattle.topic.specs.Held.{held_entries, held_book};

use crate::entry::Entries;

// What a book says of a topic and a source.
#[derive(Clone, Copy, Debug, PartialEq, Eq)]
pub enum Admission {
    // The book is no rule book.
    Malformed,
    // The source may not send to the topic.
    Closed,
    // The source may send to the topic.
    Open,
}

// A rule book that is well formed.
#[derive(Clone, Copy)]
pub struct Book<'a> {
    // Whether a topic without an entry is open.
    accepts: bool,
    entries: Entries<'a>,
}

// Whether every subnet of the entries has prefix bits to 128.
fn all_fit(mut entries: Entries) -> bool
    ensures { result ≡ all_fit (held_entries entries.entry) }
{
    entries.all(|entry| entry.fits())
}

// Whether one of the entries has the topic.
fn is_listed(mut entries: Entries, topic: &[u8]) -> bool
    ensures { result ≡ listed topic.now (held_entries entries.entry) }
{
    entries.any(|entry| entry.is_of(topic))
}

// Whether no topic has two entries. Each is compared with all behind it: quadratic in the number of entries.
#[tactic(auto, unfolding(crate::specs::Book::distinct))]
fn are_distinct(mut entries: Entries) -> bool
    ensures { result ≡ distinct (held_entries entries.entry) }
{
    // no `for`, since the entries behind each are asked too
    while let Some(entry) = entries.next() {
        if is_listed(entries, entry.topic) {
            return false;
        }
    }
    true
}

impl<'a> Book<'a> {
    // The book that the bytes are, if they are well formed.
    #[tactic(auto, using(crate::proofs::Rest::books))]
    pub fn read(bytes: &'a [u8]) -> Option<Book<'a>>
        ensures { option_map held_book result ≡ then_some (well_formed bytes.now) (book_of bytes.now) }
    {
        let (&first, rest) = bytes.split_first()?;
        if 1 < first {
            return None;
        }
        let entries = Entries::read(rest)?;
        let formed = all_fit(entries) && are_distinct(entries);
        formed.then_some(Book {
            accepts: first == 0,
            entries,
        })
    }

    // Whether it admits the source to the topic.
    pub fn admits(&self, topic: &[u8], source: &[u8; 16]) -> bool
        ensures { result ≡ admitted (held_book self.now) topic.now source.now }
    {
        let mut entries = self.entries;
        match entries.find(|entry| entry.is_of(topic)) {
            Some(entry) => entry.admits(source),
            None => self.accepts,
        }
    }
}
