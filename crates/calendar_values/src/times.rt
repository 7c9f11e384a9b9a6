// Answers at times: a letter for each, O for open, S for shut, M for malformed.
use crate::make::{EAST, UTC, WEST, daily, dated, weekly};
use calendar::{is_open, well_formed};
use std::io;

// The milliseconds of a minute and of a day.
const MINUTE: u64 = 60000;

const DAY: u64 = 86400000;

// A window in minutes, and the start of a day: 2 January 1970, 1 March 2024 or 1 January 10000.
const WINDOWS: [(u16, u16, u64); 8] = [
    (0, 1, 86400000),
    (0, 1440, 86400000),
    (0, 0, 86400000),
    (540, 1020, 86400000),
    (1439, 1440, 86400000),
    (540, 1020, 1709251200000),
    (1439, 1440, 1709251200000),
    (540, 1020, 253402300800000),
];

// A weekday, an offset, and the start of such a day there. At -720 minutes 1970 starts at noon.
const WEEKDAYS: [(usize, u16, u64); 4] = [
    (3, UTC, 604800000),
    (3, WEST, 43200000),
    (2, WEST, 561600000),
    (4, EAST, 36000000),
];

// A closed date, an offset, and the start of the date there.
const DATES: [(u16, u8, u8, u16, u64); 9] = [
    (1970, 1, 1, WEST, 43200000),
    (1970, 1, 2, EAST, 36000000),
    (1972, 2, 29, UTC, 68169600000),
    (2000, 2, 29, WEST, 951825600000),
    (2096, 2, 29, EAST, 3981261600000),
    (2100, 2, 28, UTC, 4107456000000),
    (2100, 3, 1, UTC, 4107542400000),
    (2400, 2, 29, UTC, 13574563200000),
    (9999, 12, 31, UTC, 253402214400000),
];

// The letter of an answer.
fn letter(calendar: &[u8], unix_ms: u64) -> char {
    if !well_formed(calendar) {
        'M'
    } else if is_open(calendar, unix_ms) {
        'O'
    } else {
        'S'
    }
}

// Writes two letters for each time, a millisecond before and then, and ends the line.
fn edges(rt: &impl Print, calendar: &[u8], times: &[u64]) -> io::Result<()> {
    for &time in times {
        print!(rt;
            "{}{}",
            letter(calendar, time.wrapping_sub(1)),
            letter(calendar, time)
        )?;
    }
    println!(rt)
}

// The minutes that an offset is above UTC.
fn above(offset: u16) -> i32 {
    i32::from(offset) - i32::from(UTC)
}

// Around the ends of a window of every day at UTC.
fn windows(rt: &impl Print) -> io::Result<()> {
    for (opening, closing, start) in WINDOWS {
        print!(rt; "window {opening} to {closing}, day from {start}: ")?;
        let ends = [
            start + MINUTE * u64::from(opening),
            start + MINUTE * u64::from(closing),
        ];
        edges(rt, &daily(opening, closing, UTC), &ends)?;
    }
    Ok(())
}

// One weekday: around noon of 14 days, for a window of one minute, and around the start and the end of the day.
fn weekdays(rt: &impl Print) -> io::Result<()> {
    let noons: [u64; 14] = std::array::from_fn(|day| DAY * day as u64 + MINUTE * 720);
    for weekday in 0..7 {
        print!(rt; "weekday {weekday}, noons from 1970-1-1: ")?;
        edges(rt, &weekly(weekday, 720, 721, UTC), &noons)?;
    }
    for (weekday, offset, start) in WEEKDAYS {
        print!(rt;
            "weekday {weekday}, UTC{:+}, day from {start}: ",
            above(offset)
        )?;
        edges(rt, &weekly(weekday, 0, 1440, offset), &[start, start + DAY])?;
    }
    Ok(())
}

// Around the start and the end of a closed date.
fn dates(rt: &impl Print) -> io::Result<()> {
    for (year, month, day, offset, start) in DATES {
        print!(rt;
            "closed {year}-{month}-{day}, UTC{:+}, day from {start}: ",
            above(offset)
        )?;
        edges(rt, &dated(year, month, day, offset), &[start, start + DAY])?;
    }
    Ok(())
}

// The first and the last time that there is.
fn ends(rt: &impl Print) -> io::Result<()> {
    for (name, calendar) in [
        ("all day", daily(0, 1440, UTC)),
        ("all day, UTC+840", daily(0, 1440, EAST)),
        ("never", daily(0, 0, UTC)),
        ("Wednesdays, UTC-720", weekly(2, 0, 1440, WEST)),
        ("window 5 to 5", daily(5, 5, UTC)),
    ] {
        let first = letter(&calendar, 0);
        let last = letter(&calendar, u64::MAX);
        println!(rt; "{name}, first and last time: {first}{last}")?;
    }
    Ok(())
}

pub(crate) fn run(rt: &impl Print) -> io::Result<()> {
    windows(rt)?;
    weekdays(rt)?;
    dates(rt)?;
    ends(rt)
}
