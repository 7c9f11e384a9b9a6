// Dates and weekdays of days. A day is a number: day 719,162 is Thursday 1 January 1970, so day 0 is Monday
// 1 January of year 1. Dates and weekdays are computed; the contracts say what counting from 1970 gives.
ghost use Rattle.std.specs.Prelude.{◌≡◌, ◌<◌};
ghost use Rattle.calendar.specs.Days.{leap, month_days, exists, week_days, date_of, weekday_of};

// 1 January 1970, and its year.
pub const EPOCH: u64 = 719162;

pub const EPOCH_YEAR: u64 = 1970;

pub const WEEK_DAYS: u64 = 7;

const JANUARY: u64 = 1;

const FEBRUARY: u64 = 2;

const APRIL: u64 = 4;

const JUNE: u64 = 6;

const SEPTEMBER: u64 = 9;

const NOVEMBER: u64 = 11;

const DECEMBER: u64 = 12;

// The days of 400 years, after which leap years come as before, and of four years with one leap year.
const DAYS_OF_400: u64 = 146097;

const DAYS_OF_4: u64 = 1461;

// A date; months and days of a month count from 1. A month is a number, since one that is read from bytes may be
// none of the twelve: `exists` tells.
#[derive(Clone, Copy, Debug, PartialEq, Eq)]
pub struct Date {
    pub year: u64,
    pub month: u64,
    pub day: u64,
}

// Whether a year has a 29 February.
#[tactic(auto, unfolding(crate::specs::Days::leap))]
fn leap(year: u64) -> bool
    ensures { result ≡ leap year }
{
    year % 4 == 0 && (year % 100 != 0 || year % 400 == 0)
}

// How many days a month has.
#[tactic(auto, unfolding(crate::specs::Days::month_days))]
fn month_days(year: u64, month: u64) -> u64
    ensures { result ≡ month_days year month }
{
    match month {
        FEBRUARY if leap(year) => 29,
        FEBRUARY => 28,
        APRIL | JUNE | SEPTEMBER | NOVEMBER => 30,
        _ => 31,
    }
}

// Whether a date exists.
pub fn exists(date: Date) -> bool
    ensures { result ≡ exists date }
{
    (JANUARY..=DECEMBER).contains(&date.month)
        && (1..=month_days(date.year, date.month)).contains(&date.day)
}

// The weekday of a day, 0 for Monday to 6 for Sunday: the place of its window in a calendar.
#[tactic(auto, using(crate::proofs::Counting::weekday))]
pub fn weekday_of(day: u64) -> usize
    ensures { (result ≡ weekday_of day) × (result < week_days) }
{
    (day % WEEK_DAYS) as usize
}

// The date of a day. Whole 400 years go first. In what is left a century has 36,524.25 days, and in that a
// year 365.25: each starts on its first whole day. The months of the year are tried one by one.
pub fn date_of(day: u64) -> Date
    ensures { result ≡ date_of day }
{
    let quarters = 4 * (day % DAYS_OF_400) + 3;
    let century = 4 * (day / DAYS_OF_400) + quarters / DAYS_OF_400;
    let rest = 4 * (quarters % DAYS_OF_400 / 4) + 3;
    let year = 100 * century + rest / DAYS_OF_4 + 1;
    let mut left = rest % DAYS_OF_4 / 4;
    for month in JANUARY..DECEMBER {
        let days = month_days(year, month);
        if left < days {
            return Date {
                year,
                month,
                day: left + 1,
            };
        }
        left -= days;
    }
    Date {
        year,
        month: DECEMBER,
        day: left + 1,
    }
}
