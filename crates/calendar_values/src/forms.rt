// Which calendars are well formed: counts over many, and single ones beside a bound.
use crate::make::{UTC, daily, dated, many};
use calendar::well_formed;
use std::io;

// Opening and closing minutes.
const WINDOWS: [(u16, u16); 6] = [
    (0, 0),
    (5, 5),
    (1439, 1440),
    (1440, 1440),
    (0, 1441),
    (1020, 540),
];

// A name, a number of dates, and how many bytes there are.
const LENGTHS: [(&str, u8, usize); 6] = [
    ("32 dates", 32, 159),
    ("33 dates", 33, 163),
    ("no dates, cut", 0, 30),
    ("8 dates, cut", 8, 62),
    ("8 dates", 8, 63),
    ("8 dates, too long", 8, 64),
];

// Years, months and days.
const DATES: [(u16, u8, u8); 11] = [
    (1970, 4, 30),
    (1970, 4, 31),
    (2096, 2, 29),
    (2100, 2, 29),
    (2400, 2, 29),
    (1970, 0, 1),
    (1970, 13, 1),
    (1970, 1, 0),
    (1969, 12, 31),
    (9999, 12, 31),
    (10000, 1, 1),
];

// How many windows there are, in minutes to 1,441.
fn windows() -> usize {
    (0u32..1442 * 1442)
        .filter(|both| well_formed(&daily((both / 1442) as u16, (both % 1442) as u16, UTC)))
        .count()
}

// How many offsets there are, of all that two bytes can say.
fn offsets() -> usize {
    (0..=u16::MAX)
        .filter(|&offset| well_formed(&daily(0, 1440, offset)))
        .count()
}

// How many years there are that have a date, of all that two bytes can say.
fn years(month: u8, day: u8) -> usize {
    (0..=u16::MAX)
        .filter(|&year| well_formed(&dated(year, month, day, UTC)))
        .count()
}

// How many dates a year has, of all months and days that a byte each can say.
fn dates(year: u16) -> usize {
    (0..=u16::MAX)
        .filter(|both| {
            let [month, day] = both.to_be_bytes();
            well_formed(&dated(year, month, day, UTC))
        })
        .count()
}

// How many lengths to 163 a calendar of n dates can have.
fn lengths(n: u8) -> usize {
    let whole = many(n);
    (0..=163)
        .filter(|&length| well_formed(&whole[..length]))
        .count()
}

// Counts over many.
fn counts(rt: &impl Print) -> io::Result<()> {
    println!(rt; "windows: {}", windows())?;
    println!(rt; "offsets: {}", offsets())?;
    println!(rt; "years: {}", years(1, 1))?;
    println!(rt; "years with a 29 February: {}", years(2, 29))?;
    for year in [1969, 1970, 1972, 2000, 2100, 9999, 10000] {
        println!(rt; "dates of {year}: {}", dates(year))?;
    }
    for n in [0, 32, 33, 255] {
        println!(rt; "lengths with {n} dates: {}", lengths(n))?;
    }
    Ok(())
}

// Single windows, offsets, numbers of dates and lengths, and dates that exist or do not: 1 for a calendar, else 0.
fn bounds(rt: &impl Print) -> io::Result<()> {
    for (opening, closing) in WINDOWS {
        let fits = u8::from(well_formed(&daily(opening, closing, UTC)));
        println!(rt; "window {opening} to {closing}: {fits}")?;
    }
    for minutes in [840, 841] {
        let fits = u8::from(well_formed(&daily(0, 1440, UTC + minutes)));
        println!(rt; "offset {minutes}: {fits}")?;
    }
    for (name, n, length) in LENGTHS {
        let fits = u8::from(well_formed(&many(n)[..length]));
        println!(rt; "{name}: {fits}")?;
    }
    for (year, month, day) in DATES {
        let fits = u8::from(well_formed(&dated(year, month, day, UTC)));
        println!(rt; "date {year}-{month}-{day}: {fits}")?;
    }
    Ok(())
}

pub(crate) fn run(rt: &impl Print) -> io::Result<()> {
    counts(rt)?;
    bounds(rt)
}
