// Worked values of the crate calendar: dates and weekdays of days, which forms of calendars there are, and
// answers at the ends of windows, days and dates. tools/calendar_values.py computes the expected lines with
// Python's module datetime.

#![tactic(auto)]

mod dates;
mod forms;
mod make;
mod times;

use std::io;

fn main(rt: HostRuntime) -> io::Result<()> {
    dates::run(&rt)?;
    forms::run(&rt)?;
    times::run(&rt)
}
