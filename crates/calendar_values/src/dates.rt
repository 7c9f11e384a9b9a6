// Dates and weekdays. Days are numbered as the crate does: 719,162 is 1 January 1970.
use calendar::days::{date_of, weekday_of};
use std::io;

const WEEKDAYS: [&str; 7] = ["Mon", "Tue", "Wed", "Thu", "Fri", "Sat", "Sun"];

const DAYS: [u64; 28] = [
    // The day before 1970, and the first week.
    719161,
    719162,
    719163,
    719164,
    719165,
    719166,
    719167,
    719168,
    // 28 February of 1972, 1973, 2000, 2096, 2100 and 2400, and the day after.
    719950,
    719951,
    720316,
    720317,
    730177,
    730178,
    765241,
    765242,
    766702,
    766703,
    876274,
    876275,
    // The first day of year 1.
    0,
    // The last of 9999, and the first day past it.
    3652058,
    3652059,
    // 28 February of 10000 and of 10100 and the day after, and the last day of 64-bit milliseconds.
    3652117,
    3652118,
    3688642,
    3688643,
    213504701496,
];

// Turns what is there by 7 bits, and mixes a date and its weekday in.
fn mixed(sum: u64, day: u64) -> u64 {
    let date = date_of(day);
    sum.rotate_left(7)
        ^ (date.year << 16)
        ^ (date.month << 12)
        ^ (date.day << 4)
        ^ (weekday_of(day) as u64)
}

pub(crate) fn run(rt: &impl Print) -> io::Result<()> {
    let all = (0..3652059).fold(0, mixed);
    println!(rt; "the days of the years 1 to 9999: {all}")?;
    for day in DAYS {
        let weekday = WEEKDAYS[weekday_of(day)];
        let date = date_of(day);
        println!(rt;
            "day {day}: {weekday} {}-{}-{}",
            date.year, date.month, date.day
        )?;
    }
    Ok(())
}
