// The bytes of calendars, of up to 33 dates.
ghost use Rattle.std.specs.Prelude.{◌<◌};

// The offsets -720, 0 and 840, as they stand in a calendar.
pub(crate) const WEST: u16 = 0;

pub(crate) const UTC: u16 = 720;

pub(crate) const EAST: u16 = 1560;

// The bytes of a window.
fn window(opening: u16, closing: u16) -> [u8; 4] {
    let [a, b] = opening.to_be_bytes();
    let [c, d] = closing.to_be_bytes();
    [a, b, c, d]
}

// The windows of a week, at an offset, with no dates.
fn undated(windows: &[[u8; 4]; 7], offset: u16) -> [u8; 31] {
    let mut out = [0; 31];
    out[..28].copy_from_slice(windows.as_flattened());
    out[28..30].copy_from_slice(&offset.to_be_bytes());
    out
}

// One window every day, at an offset. It has no dates.
pub(crate) fn daily(opening: u16, closing: u16, offset: u16) -> [u8; 31] {
    undated(&[window(opening, closing); 7], offset)
}

// One window on one weekday, at an offset. It has no dates.
pub(crate) fn weekly(weekday: usize, opening: u16, closing: u16, offset: u16) -> [u8; 31]
    requires { weekday < 7 }
{
    let mut windows = [window(0, 0); 7];
    windows[weekday] = window(opening, closing);
    undated(&windows, offset)
}

// All day every day, but for a date, at an offset.
pub(crate) fn dated(year: u16, month: u8, day: u8, offset: u16) -> [u8; 35] {
    let mut out = [0; 35];
    out[..31].copy_from_slice(&daily(0, 1440, offset));
    out[30] = 1;
    out[31..33].copy_from_slice(&year.to_be_bytes());
    out[33] = month;
    out[34] = day;
    out
}

// All day every day at UTC, but for 29 February 2000, as often as there is room. Its number of dates is n.
pub(crate) fn many(n: u8) -> [u8; 163] {
    let mut out = [0; 163];
    out[..31].copy_from_slice(&daily(0, 1440, UTC));
    out[30] = n;
    for date in out[31..].chunks_exact_mut(4) {
        date.copy_from_slice(b"\x07\xd0\x02\x1d");
    }
    out
}
