// Sending hours: whether a time, in Unix milliseconds, lies within the hours of a calendar (bytes). Any bytes
// and any time have an answer. A calendar has at most 32 dates, and the date of a day is computed and not
// counted, so that an answer takes bounded time.

#![tactic(auto)]

pub mod days;
mod form;
mod time;

pub use form::well_formed;
pub use time::is_open;

// A calendar that is always open: all day on every weekday, by UTC, with no closed date.
pub const ALWAYS: [u8; 31] = [
    0, 0, 5, 160, 0, 0, 5, 160, 0, 0, 5, 160, 0, 0, 5, 160, 0, 0, 5, 160, 0, 0, 5, 160, 0, 0, 5,
    160, 2, 208, 0,
];
