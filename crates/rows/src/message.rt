// What the length of a message decides.

ghost use Rattle.std.specs.Prelude.{◌≡◌, ◌&&◌, ◌≤◌, ◌<◌, leb};
ghost use Rattle.machine.specs.Limits.{longest, least_piece, ceil, slots_of, top_of, most_slots};

// Length at most; pieces are cut by CUT, and a piece below LEAST is short.
pub const LONGEST: u64 = 32500;

pub const CUT: u64 = 1300;

pub const LEAST: u64 = 250;

// The first two as the bytes of a slice.
pub const LONGEST_BYTES: usize = LONGEST as usize;

pub const CUT_BYTES: usize = CUT as usize;

// How many slots a length asks for.
pub fn slots(length: u64) -> u64
    requires { length ≤ longest }
    ensures { result ≡ slots_of length }
{
    (length + (CUT - 1)) / CUT
}

// The highest index of a piece.
pub fn top(length: u64) -> u64
    requires { length ≤ longest }
    ensures { (result ≡ top_of length) × (result < ceil longest least_piece) }
{
    if length == 0 {
        return 0;
    }
    (length + (LEAST - 1)) / LEAST - 1
}

// Whether a number of slots is in the range of a length.
pub fn slots_fit(length: u64, n: u64) -> bool
    requires { length ≤ longest }
    ensures { result ≡ (leb (slots_of length) n && leb n (most_slots length)) }
{
    let least = slots(length);
    let most = top(length) + 1;
    (least <= n) & ((n <= least) | (n <= most))
}
