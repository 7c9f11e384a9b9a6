// A record of a store.

ghost use Rattle.std.specs.Prelude.{◌≡◌, ◌≤◌, length};
ghost use Rattle.machine.specs.Limits.{rec_count, rec_bytes};
ghost use Rattle.machine.specs.Layout.{rec_off, topic_at, sending_of};
ghost use Rattle.machine.specs.Rows.{zero_from};
ghost use Rattle.machine.specs.Sound.{sending_fits};
ghost use Rattle.rows.specs.Asked.{record_fits};

#[derive(Clone, Copy)]
pub struct Record {}

impl Record {
    pub const NEXT: usize = 0;

    pub const KIND: usize = 1;

    pub const REPLY: usize = 2;

    pub const STATE: usize = 3;

    pub const TIMED_OUT: usize = 4;

    pub const FIRST_CELL: usize = 5;

    pub const TOPIC_LENGTH: usize = 6;

    pub const SLOTS: usize = 7;

    pub const ID: usize = 8;

    pub const SOURCE: usize = 16;

    pub const DESTINATION: usize = 32;

    pub const LENGTH: usize = 48;

    pub const CREATED: usize = 56;

    pub const END: usize = 64;

    pub const TOPIC: usize = 72;
}

// The bytes of an id and of an address.
pub const ID_SIZE: usize = Record::SOURCE - Record::ID;

pub const ADDRESS_SIZE: usize = Record::DESTINATION - Record::SOURCE;

// Where the first record stands, the bytes of one, and how many there are.
pub const FIRST: usize = crate::head::Head::BYTES;

pub const BYTES: usize = 328;

pub const COUNT: usize = 8;

// One step more than there are records: a walk along a chain of sound bytes has ended before.
pub const STEPS: usize = COUNT + 1;

// The most cells that the records of one source hold together.
pub const MOST_OF_SOURCE: u64 = 30;

// Where the record at a place starts.
pub fn record_at(place: usize) -> usize
    requires { (1 ≤ place) × (place ≤ rec_count) }
    ensures { result ≡ rec_off place }
{
    FIRST + BYTES * (place - 1)
}

// The kinds of a record that is not free.
pub const ARRIVING: u64 = 1;

pub const WHOLE: u64 = 2;

pub const LEAVING: u64 = 3;

// The states of a sender, the highest last.
pub const INIT: u8 = 0;

pub const IN_PROGRESS: u8 = 1;

pub const RECEIVED: u8 = 2;

pub const READ: u8 = 3;

pub const ABORTED: u8 = 4;

// Whether what only a sender keeps is in range, and zero where there is no sender.
pub fn sending_fits(row: &[u8], role: u64) -> bool
    requires { length row.now ≡ rec_bytes }
    ensures { result ≡ sending_fits role (sending_of row.now) }
{
    let state = row[Record::STATE];
    let timed = row[Record::TIMED_OUT];
    if role == crate::head::RECEIVE {
        let created = octets::read::<8>(row, Record::CREATED);
        let end = octets::read::<8>(row, Record::END);
        return (state == 0) & (timed == 0) & (created == 0) & (end == 0);
    }
    (state <= ABORTED) & (timed <= 1)
}

// The most bytes of a short topic, where a topic of that size ends, and what is left of its record.
const SHORT_TOPIC: usize = 64;

const SHORT_END: usize = Record::TOPIC + SHORT_TOPIC;

const SHORT_REST: usize = BYTES - SHORT_END;

// Whether the row is zero from `past` on, the byte past its topic. If the topic is short, these bytes are read in two parts that
// overlap, so that the compiler knows how long its loops are.
fn ends(row: &[u8], past: usize) -> bool
    requires { (length row.now ≡ rec_bytes) × (topic_at ≤ past) × (past ≤ rec_bytes) }
    ensures { result ≡ zero_from rec_bytes past row.now }
{
    if past <= SHORT_END {
        return octets::zero_part(row, past, SHORT_TOPIC)
            & octets::zero_part(row, SHORT_END, SHORT_REST);
    }
    octets::zero_part(row, past, BYTES - past)
}

// Whether the row is that of a record of the kind, all but its pieces.
pub fn fits(row: &[u8], role: u64, kind: u64) -> bool
    requires { length row.now ≡ rec_bytes }
    ensures { result ≡ record_fits role kind row.now }
{
    let length = octets::read::<8>(row, Record::LENGTH);
    if length > crate::message::LONGEST {
        return false;
    }
    let past = Record::TOPIC + usize::from(row[Record::TOPIC_LENGTH]);
    let rest = ends(row, past);
    let sending = sending_fits(row, role);
    let slots = crate::message::slots_fit(length, u64::from(row[Record::SLOTS]));
    (u64::from(row[Record::KIND]) == kind) & rest & (row[Record::REPLY] <= 1) & sending & slots
}
