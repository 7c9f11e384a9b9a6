// The bytes of a calendar: for each weekday from Monday on its window, opening and closing minute (2 each);
// the offset from UTC in minutes, plus 720 (2); the number of closed dates (1); and these, each year (2),
// month (1) and day (1).
ghost use Rattle.std.specs.Prelude.{◌≡◌, ◌<◌, is_some, IfSome};
ghost use Rattle.calendar.specs.Days.{week_days};
ghost use Rattle.calendar.specs.Calendar.{window_of, shifted, number, closed_date, exact, fits, listable};
ghost use Rattle.calendar.specs.Calendar.{windows_fit, dates_exist, well_formed, within, free};
ghost use Rattle.calendar.specs.Asked.{Sized};

use crate::days::{Date, EPOCH_YEAR, WEEK_DAYS, exists};
use octets::read;

const WORD_BYTES: usize = 2;

const WINDOW_BYTES: usize = 2 * WORD_BYTES;

const DATE_BYTES: usize = WORD_BYTES + 2;

const WINDOWS: usize = WEEK_DAYS as usize;

// Where the offset, the number of dates and the dates stand.
const OFFSET: usize = WINDOWS * WINDOW_BYTES;

const NUMBER: usize = OFFSET + WORD_BYTES;

const DATES: usize = NUMBER + 1;

// How far below and above UTC the offset goes, and both together.
pub const OFFSET_BELOW: u64 = 720;

const OFFSET_ABOVE: u64 = 840;

const OFFSET_MOST: u64 = OFFSET_BELOW + OFFSET_ABOVE;

const MOST_DATES: usize = 32;

const LAST_YEAR: u64 = 9999;

pub const DAY_MINUTES: u64 = 1440;

// The hours of a weekday. Opening minute included, closing minute not; two zeros mean closed all day.
#[derive(Clone, Copy)]
pub struct Window {
    pub opening: u64,
    pub closing: u64,
}

impl Window {
    // Whether it is two zeros, or opens before it closes on the same day.
    fn fits(&self) -> bool
        ensures { result ≡ fits self.now }
    {
        (self.opening == 0 && self.closing == 0)
            || (self.opening < self.closing && self.closing <= DAY_MINUTES)
    }

    // Whether a minute of the day lies in it.
    pub fn contains(&self, minute: u64) -> bool
        ensures { result ≡ within self.now minute }
    {
        self.opening <= minute && minute < self.closing
    }
}

// Whether a date exists, in the years 1970 to 9999.
fn is_listable(date: Date) -> bool
    ensures { result ≡ listable date }
{
    (EPOCH_YEAR..=LAST_YEAR).contains(&date.year) && exists(date)
}

// The bytes of a calendar, which end where the last date does.
#[derive(Clone, Copy)]
pub struct Calendar<'a> {
    bytes: &'a [u8],
    ghost sized: { Sized bytes.now },
}

impl<'a> Calendar<'a> {
    // The calendar of the bytes, if they end where the last date does.
    pub fn new(bytes: &'a [u8]) -> Option<Calendar<'a>>
        ensures found { is_some result ≡ exact bytes.now }
        ensures same { IfSome result (λ c. c.bytes.now ≡ bytes.now) }
    {
        let number = usize::from(*bytes.get(NUMBER)?);
        if bytes.len() == DATES + DATE_BYTES * number {
            Some(Calendar { bytes })
        } else {
            None
        }
    }

    // The window of a weekday, 0 for Monday to 6 for Sunday.
    pub fn window(&self, weekday: usize) -> Window
        requires { weekday < week_days }
        ensures { result ≡ window_of self.now.bytes.now weekday }
    {
        let at = WINDOW_BYTES * weekday;
        Window {
            opening: read::<2>(self.bytes, at),
            closing: read::<2>(self.bytes, at + WORD_BYTES),
        }
    }

    // The offset from UTC in minutes, plus 720.
    pub fn offset(&self) -> u64
        ensures { (result ≡ shifted self.now.bytes.now) × (result < 65536) }
    {
        read::<2>(self.bytes, OFFSET)
    }

    // The number of closed dates.
    fn number(&self) -> usize
        ensures { result ≡ number self.now.bytes.now }
    {
        usize::from(self.bytes[NUMBER])
    }

    // Closed date i.
    fn closed_date(&self, i: usize) -> Date
        requires { i < number self.now.bytes.now }
        ensures { result ≡ closed_date self.now.bytes.now i }
    {
        let at = DATES + DATE_BYTES * i;
        Date {
            year: read::<2>(self.bytes, at),
            month: u64::from(self.bytes[at + WORD_BYTES]),
            day: u64::from(self.bytes[at + WORD_BYTES + 1]),
        }
    }

    // Whether all windows fit.
    fn windows_fit(&self) -> bool
        ensures { result ≡ windows_fit self.now.bytes.now }
    {
        (0..WINDOWS).all(|weekday| self.window(weekday).fits())
    }

    // Whether all closed dates can be listed.
    fn dates_exist(&self) -> bool
        ensures { result ≡ dates_exist self.now.bytes.now }
    {
        (0..self.number()).all(|i| is_listable(self.closed_date(i)))
    }

    // Whether no closed date is the date.
    pub fn is_free(&self, date: Date) -> bool
        ensures { result ≡ free self.now.bytes.now date }
    {
        (0..self.number()).all(|i| self.closed_date(i) != date)
    }
}

// Whether the bytes are a calendar.
#[tactic(auto, unfolding(crate::specs::Calendar::well_formed))]
pub fn well_formed(calendar: &[u8]) -> bool
    ensures { result ≡ well_formed calendar.now }
{
    let Some(calendar) = Calendar::new(calendar) else {
        return false;
    };
    calendar.number() <= MOST_DATES
        && calendar.offset() <= OFFSET_MOST
        && calendar.windows_fit()
        && calendar.dates_exist()
}
