// The record that a link leads to, and its fields.

ghost use Rattle.std.specs.Prelude.{◌≡◌, ◌+◌, ◌<◌, ◌≤◌, get_or, length};
ghost use Rattle.octets.specs.Octets.{part, Bytes};
ghost use Rattle.machine.specs.Limits.{rec_bytes};
ghost use Rattle.machine.specs.Layout.{number_width, rec_off, first_cell_at, slots_at, num_at, label_of, sending_of};
ghost use Rattle.records.specs.HeldAt.{place_at, row_in, Reached};

use rows::record;
use rows::record::{ADDRESS_SIZE, ID_SIZE, Record};

// The kinds of a record that is not free, as a row's byte.
pub const ARRIVING: u8 = record::ARRIVING as u8;

pub const WHOLE: u8 = record::WHOLE as u8;

pub const LEAVING: u8 = record::LEAVING as u8;

// The record of a store that the link at byte `link` leads to.
#[derive(Clone, Copy)]
pub struct Row<'a> {
    pub store: &'a [u8],
    pub link: usize,
    ghost octets: { Bytes store.now },
    ghost reached: { Reached store.now link },
}

impl<'a> Row<'a> {
    // Where its row starts.
    pub fn start(self) -> usize
        ensures { let b = self.entry.store.now in
            (result ≡ rec_off (place_at b self.entry.link)) × (result + rec_bytes ≤ length b) }
    {
        record::record_at(usize::from(self.store[self.link]))
    }

    // The byte at o of its row.
    #[tactic(auto, using(crate::proofs::Fields::byte_is))]
    fn byte(self, o: usize) -> u8
        requires { o < rec_bytes }
        ensures { result ≡ get_or (row_in self.entry.store.now self.entry.link) o 0 }
    {
        self.store[self.start() + o]
    }

    // The number at o of its row.
    #[tactic(auto, using(crate::proofs::Fields::number_is))]
    fn number(self, o: usize) -> u64
        requires { o + number_width ≤ rec_bytes }
        ensures { result ≡ num_at number_width (row_in self.entry.store.now self.entry.link) o }
    {
        octets::read::<8>(self.store, self.start() + o)
    }

    // The n bytes at o of its row, as that part of the store.
    #[tactic(auto, using(crate::proofs::Fields::bytes_are))]
    fn bytes(self, o: usize, n: usize) -> &'a [u8]
        requires { o + n ≤ rec_bytes }
        ensures { result.now ≡ part (row_in self.entry.store.now self.entry.link) o n }
    {
        let a = self.start() + o;
        &self.store[a..a + n]
    }

    // The message's length.
    pub fn total(self) -> u64
        ensures { result ≡ (label_of (row_in self.entry.store.now self.entry.link)).total }
    {
        self.number(Record::LENGTH)
    }

    // The number of slots.
    pub fn slots(self) -> u64
        ensures { (result ≡ get_or (row_in self.entry.store.now self.entry.link) slots_at 0) × (result < 256) }
    {
        u64::from(self.byte(Record::SLOTS))
    }

    // The reply mark.
    pub fn reply(self) -> u8
        ensures { result ≡ (label_of (row_in self.entry.store.now self.entry.link)).reply }
    {
        self.byte(Record::REPLY)
    }

    // The sender's state.
    pub fn state(self) -> u8
        ensures { result ≡ (sending_of (row_in self.entry.store.now self.entry.link)).state }
    {
        self.byte(Record::STATE)
    }

    // The timed-out mark.
    pub fn timed_out(self) -> u8
        ensures { result ≡ (sending_of (row_in self.entry.store.now self.entry.link)).timed_out }
    {
        self.byte(Record::TIMED_OUT)
    }

    // When it was created, in milliseconds.
    pub fn created(self) -> u64
        ensures { result ≡ (sending_of (row_in self.entry.store.now self.entry.link)).created }
    {
        self.number(Record::CREATED)
    }

    // When its time is over, in milliseconds.
    pub fn end(self) -> u64
        ensures { result ≡ (sending_of (row_in self.entry.store.now self.entry.link)).end }
    {
        self.number(Record::END)
    }

    // The id, as that part of the store.
    pub fn id(self) -> &'a [u8]
        ensures { result.now ≡ (label_of (row_in self.entry.store.now self.entry.link)).id }
    {
        self.bytes(Record::ID, ID_SIZE)
    }

    // The source's address, as that part of the store.
    pub fn source(self) -> &'a [u8]
        ensures { result.now ≡ (label_of (row_in self.entry.store.now self.entry.link)).source }
    {
        self.bytes(Record::SOURCE, ADDRESS_SIZE)
    }

    // The destination's address, as that part of the store.
    pub fn destination(self) -> &'a [u8]
        ensures { result.now ≡ (label_of (row_in self.entry.store.now self.entry.link)).destination }
    {
        self.bytes(Record::DESTINATION, ADDRESS_SIZE)
    }

    // The topic, as that part of the store.
    pub fn topic(self) -> &'a [u8]
        ensures { result.now ≡ (label_of (row_in self.entry.store.now self.entry.link)).topic }
    {
        let size = usize::from(self.byte(Record::TOPIC_LENGTH));
        self.bytes(Record::TOPIC, size)
    }

    // The whole row, as that part of the store.
    #[tactic(auto, using(crate::proofs::Fields::row_is))]
    pub fn whole_row(self) -> &'a [u8]
        ensures { result.now ≡ row_in self.entry.store.now self.entry.link }
    {
        let a = self.start();
        &self.store[a..a + record::BYTES]
    }

    // The place of its first piece, 0 for none.
    pub fn first_cell(self) -> usize
        ensures { result ≡ get_or (row_in self.entry.store.now self.entry.link) first_cell_at 0 }
    {
        usize::from(self.byte(Record::FIRST_CELL))
    }
}
