// Sending hours: calendars that are none, against the refusals beside theirs, and the edges of a window.

use crate::ask::Wake;
use crate::make::{SMALL, Stores};
use calendar::ALWAYS;
use std::io;

// Open on Thursdays from 10 to 11, by UTC.
const THURSDAYS: [u8; 31] = [
    0, 0, 0, 0, 0, 0, 0, 0, 0, 0, 0, 0, 2, 88, 2, 148, 0, 0, 0, 0, 0, 0, 0, 0, 0, 0, 0, 0, 2, 208,
    0,
];

// Thursday 1 January 1970, at 10.
const TEN: u64 = 36000000;

// A send wake then.
const AT_TEN: Wake<'static> = Wake {
    kind: 1,
    key: 1,
    calendar: &THURSDAYS,
    unix_ms: TEN,
};

// A calendar that is cut or goes on: behind the kind of the wake, before its run and its id; and outside
// hours the run and the id are asked for all the same.
pub(crate) fn refused(rt: &impl Print) -> io::Result<()> {
    let mut run = [0xeeu8; 10960];
    let mut short = [0xeeu8; 10959];
    let mut brief = [0xeeu8; 45];
    let mut stores = Stores::<SMALL>::held();
    let none = Wake {
        calendar: b"",
        ..AT_TEN
    };
    stores.wake_at(rt, "wake 1, no calendar", none, &mut run)?;
    let cut = Wake {
        calendar: &THURSDAYS[..30],
        ..AT_TEN
    };
    stores.wake_at(rt, "wake 1, calendar of 30", cut, &mut run)?;
    let odd = Wake { kind: 0, ..none };
    stores.wake_at(rt, "wake 0, no calendar", odd, &mut run)?;
    stores.wake_at(rt, "wake 1, no calendar, run of 10959", none, &mut short)?;
    let unknown = Wake { key: 2, ..none };
    stores.wake_at(rt, "wake 1, no calendar, unknown id", unknown, &mut run)?;
    let shut = Wake {
        unix_ms: 0,
        ..AT_TEN
    };
    stores.wake_at(rt, "wake 1, shut, run of 10959", shut, &mut short)?;
    let unknown = Wake { key: 2, ..shut };
    stores.wake_at(rt, "wake 1, shut, unknown id", unknown, &mut run)?;
    let deadline = Wake { kind: 2, ..none };
    stores.wake_at(rt, "wake 2, no calendar, run of 45", deadline, &mut brief)?;
    let unknown = Wake { key: 2, ..deadline };
    stores.wake_at(rt, "wake 2, no calendar, unknown id", unknown, &mut run)?;
    stores.wake_at(rt, "wake 2, no calendar", deadline, &mut run)
}

// The last millisecond before a window, its first, its last and the next; and the deadline outside hours.
pub(crate) fn edges(rt: &impl Print) -> io::Result<()> {
    let mut run = [0xeeu8; 10960];
    let mut stores = Stores::<SMALL>::held();
    let edges = [
        ("wake 1 before 10", TEN - 1),
        ("wake 1 from 11 on", TEN + 3600000),
        ("wake 1 on Friday", TEN + 86400000),
        ("wake 1 until 11", TEN + 3599999),
    ];
    for (what, unix_ms) in edges {
        stores.wake_at(rt, what, Wake { unix_ms, ..AT_TEN }, &mut run)?;
    }
    stores = Stores::<SMALL>::held();
    stores.wake_at(rt, "wake 1 at 10", AT_TEN, &mut run)?;
    stores = Stores::<SMALL>::held();
    let always = Wake {
        calendar: &ALWAYS,
        unix_ms: u64::MAX,
        ..AT_TEN
    };
    stores.wake_at(rt, "wake 1 at 2^64 - 1", always, &mut run)?;
    let deadline = Wake {
        kind: 2,
        unix_ms: TEN + 3600000,
        ..AT_TEN
    };
    stores.wake_at(rt, "wake 2 from 11 on", deadline, &mut run)
}
