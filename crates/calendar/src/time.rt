// Local time: the weekday, the minute and the date at which a calendar is asked.
ghost use Rattle.std.specs.Prelude.{◌≡◌, true};
ghost use Rattle.calendar.specs.Calendar.{open_at, well_formed, is_open};

use crate::days::{EPOCH, date_of, weekday_of};
use crate::form::{Calendar, DAY_MINUTES, OFFSET_BELOW};

const MINUTE_MS: u64 = 60000;

// The minutes from the start of day 0 to that of 1 January 1970.
const EPOCH_MINUTES: u64 = DAY_MINUTES * EPOCH;

impl<'a> Calendar<'a> {
    // Whether it is open at a minute of a day.
    fn is_open_at(&self, day: u64, minute: u64) -> bool
        ensures { result ≡ open_at self.now.bytes.now day minute }
    {
        self.window(weekday_of(day)).contains(minute) && self.is_free(date_of(day))
    }
}

// Whether a well-formed calendar is open at a time.
#[tactic(auto, unfolding(crate::specs::Calendar::well_formed, crate::specs::Calendar::is_open))]
pub fn is_open(calendar: &[u8], unix_ms: u64) -> bool
    requires { well_formed calendar.now ≡ true }
    ensures { result ≡ is_open calendar.now unix_ms }
{
    let calendar = Calendar::new(calendar).unwrap();
    let utc = EPOCH_MINUTES + unix_ms / MINUTE_MS;
    let local = utc + calendar.offset() - OFFSET_BELOW;
    calendar.is_open_at(local / DAY_MINUTES, local % DAY_MINUTES)
}
