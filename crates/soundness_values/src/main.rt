// What is sound and what is not: stores made here, and bytes near them, each with how many of them are found
// sound. The expected lines were computed by a model of PROTOCOL's rules that was written apart from this
// code.

#![tactic(auto)]

ghost use Rattle.std.specs.Prelude.{◌≡◌, ◌+◌, ◌≤◌, ◌<◌, length};

use std::io;
use std::ops::Range;

// How many prefixes of s are sound.
fn prefixes(s: &[u8], role: u64) -> usize
    requires { length s.now < 100000 }
{
    (0..=s.len())
        .filter(|k| soundness::sound(&s[..*k], role))
        .count()
}

// Whether setup makes s a sound store.
fn made(s: &mut [u8], role: u64) -> bool {
    soundness::setup(s, role).is_ok() && soundness::sound(s, role)
}

// How many prefixes of s setup makes sound stores.
fn fresh(s: &mut [u8], role: u64) -> usize
    requires { length s.old < 100000 }
{
    let mut n = 0;
    for k in 0..=s.len() {
        if made(&mut s[..k], role) {
            n += 1;
        }
    }
    n
}

// For how many of its 256 values the byte at a leaves s sound.
fn values(s: &mut [u8], a: usize, role: u64) -> usize
    requires { a < length s.old }
    ensures same { length s.new ≡ length s.old }
    ensures upper_bound { result ≤ 256 }
{
    let old = s[a];
    let mut n = 0;
    for v in 0u16..256 {
        s[a] = v as u8;
        if soundness::sound(s, role) {
            n += 1;
        }
    }
    s[a] = old;
    n
}

// The same of some bytes, together.
fn all_values(s: &mut [u8], bytes: Range<usize>, role: u64) -> usize
    requires { (bytes.end ≤ length s.old) × (bytes.end < 100000) }
    ensures { length s.new ≡ length s.old }
{
    let mut n = 0;
    for k in bytes {
        n += values(s, k, role);
    }
    n
}

// The same of each byte of the head, in one line.
fn head(rt: &impl Print, s: &mut [u8], role: u64) -> io::Result<()>
    requires { 16 ≤ length s.old }
    ensures { length s.new ≡ length s.old }
{
    print!(rt; "  values of each head byte:")?;
    for k in 0..16 {
        let n = values(s, k, role);
        print!(rt; " {n}")?;
    }
    println!(rt)
}

// The bytes where the records 1 and 2 and the cells 1 and 2 of a store of two cells start.
const R1: usize = 16;

const R2: usize = 344;

const C1: usize = 2640;

const C2: usize = 4020;

// A store to receive: an arriving record of 300 bytes with its piece 1, and a whole one of 250 bytes. Here and
// below setup does not refuse, since a store may have that length.
fn received(s: &mut [u8; 5400]) {
    let _ = soundness::setup(s, 1);
    s[0] = 3;
    s[1] = 1;
    s[2] = 2;
    s[3] = 0;
    s[R1] = 0;
    s[R1 + 1] = 1;
    s[R1 + 5] = 1;
    s[R1 + 6] = 2;
    s[R1 + 7] = 2;
    s[R1 + 15] = 1;
    s[R1 + 54] = 1;
    s[R1 + 55] = 44;
    s[R1 + 72] = 104;
    s[R1 + 73] = 105;
    s[R2] = 0;
    s[R2 + 1] = 2;
    s[R2 + 5] = 2;
    s[R2 + 7] = 1;
    s[R2 + 15] = 2;
    s[R2 + 55] = 250;
    s[C1] = 0;
    s[C1 + 1] = 1;
    s[C1 + 2] = 1;
    s[C1 + 3] = 44;
    s[C2 + 3] = 250;
}

// A store to send: a record of 1,301 bytes in progress, its first piece Sent.
fn sent(s: &mut [u8; 5400]) {
    let _ = soundness::setup(s, 2);
    s[0] = 2;
    s[1] = 1;
    s[3] = 0;
    s[R1] = 0;
    s[R1 + 1] = 3;
    s[R1 + 2] = 1;
    s[R1 + 3] = 1;
    s[R1 + 5] = 1;
    s[R1 + 7] = 2;
    s[R1 + 54] = 5;
    s[R1 + 55] = 21;
    s[R1 + 63] = 9;
    s[C1] = 2;
    s[C1 + 2] = 5;
    s[C1 + 3] = 20;
    s[C1 + 11] = 9;
    s[C1 + 12] = 1;
    s[C2 + 1] = 1;
    s[C2 + 3] = 1;
}

// Whether a store to receive is sound with the byte at a set to v.
fn with(s: &[u8; 5400], a: usize, v: u8) -> u8
    requires { a < 5400 }
    ensures { result ≤ 1 }
{
    let mut changed = *s;
    changed[a] = v;
    u8::from(soundness::sound(&changed, 1))
}

// Chains that lead back, and rows in two chains.
fn chains(rt: &impl Print) -> io::Result<()> {
    let mut s = [0u8; 5400];
    let _ = soundness::setup(&mut s, 1);
    println!(rt; "free record 8 leads to 1: {}", with(&s, 2312, 1))?;
    println!(rt; "free record 1 leads to itself: {}", with(&s, R1, 1))?;
    println!(rt; "free cell 2 leads to 1: {}", with(&s, C2, 1))?;
    received(&mut s);
    println!(rt; "a held record leads to itself: {}", with(&s, R1, 1))?;
    println!(rt; "a whole record leads to itself: {}", with(&s, R2, 2))?;
    println!(rt; "a held record leads to a whole one: {}", with(&s, R1, 2))?;
    println!(rt; "a free record leads to a held one: {}", with(&s, 2312, 1))?;
    println!(rt; "a piece leads to itself: {}", with(&s, C1, 1))?;
    println!(rt; "a piece leads to another record's: {}", with(&s, C1, 2))?;
    println!(rt; "two ids are one: {}", with(&s, R1 + 15, 2))?;
    println!(rt;
        "a whole record is one slot larger: {}",
        with(&s, R2 + 7, 2)
    )?;
    println!(rt;
        "an arriving record is one slot larger: {}",
        with(&s, R1 + 7, 3)
    )?;
    println!(rt; "one byte of a free record is 1: {}", with(&s, 1000, 1))?;
    println!(rt;
        "one byte past a piece is 1: {}",
        with(&s, C1 + 16 + 300, 1)
    )?;
    println!(rt; "one byte of a piece is 1: {}", with(&s, C1 + 16 + 299, 1))
}

// Where the cells of a store of 45 cells start, behind its records.
const CELLS: usize = 2640;

// Cells of a fresh store become the pieces of a record: so many bytes each, all 0.
fn chained(s: &mut [u8; 64740], cells: Range<usize>, size: u16)
    requires { (1 ≤ cells.start) × (cells.start ≤ cells.end) × (cells.end ≤ 46) }
{
    let Range { start, end } = cells;
    for c in start..end {
        let row = CELLS + 1380 * (c - 1);
        s[row + 1] = (c - start) as u8;
        s[row + 2..row + 4].copy_from_slice(&size.to_be_bytes());
    }
    if start < end {
        s[CELLS + 1380 * (end - 2)] = 0;
    }
}

// The place of the first of some cells, 0 for none.
fn first_of(cells: &Range<usize>) -> u8
    requires { cells.now.start ≤ 255 }
{
    if cells.is_empty() {
        0
    } else {
        cells.start as u8
    }
}

// A record of a kind and a source at a place, with some cells and a length.
fn placed(
    s: &mut [u8; 64740],
    place: usize,
    kind: u8,
    source: u8,
    cells: &Range<usize>,
    length: u16,
)
    requires { (1 ≤ place) × (place ≤ 8) × (cells.now.start ≤ 255) }
{
    let row = 16 + 328 * (place - 1);
    s[row + 1] = kind;
    s[row + 5] = first_of(cells);
    s[row + 15] = place as u8;
    s[row + 31] = source;
    s[row + 54..row + 56].copy_from_slice(&length.to_be_bytes());
}

// A store to receive: two arriving records of 32,500 bytes with n pieces of no bytes, k of them the first record's,
// of source 1; the second record is of the source.
fn shared(s: &mut [u8; 64740], k: usize, n: usize, source: u8)
    requires { (k ≤ n) × (n ≤ 45) }
{
    let one = 1..k + 1;
    let two = k + 1..n + 1;
    let _ = soundness::setup(s, 1);
    s[0] = 3;
    s[1] = 1;
    s[3] = first_of(&(n + 1..46));
    placed(s, 1, 1, 1, &one, 32500);
    placed(s, 2, 1, source, &two, 32500);
    s[R1] = 2;
    s[R2] = 0;
    s[R1 + 7] = 130;
    s[R2 + 7] = 130;
    chained(s, one, 0);
    chained(s, two, 0);
}

// How many of the ways to share n pieces between two records, the second of the source, are sound.
fn splits(s: &mut [u8; 64740], n: usize, source: u8) -> usize
    requires { n ≤ 45 }
{
    let mut found = 0;
    for k in 0..=n {
        shared(s, k, n, source);
        if soundness::sound(s, 1) {
            found += 1;
        }
    }
    found
}

// The first record's n pieces, and a whole record of no bytes and one piece, of the source.
fn with_whole(s: &mut [u8; 64740], n: usize, source: u8) -> u8
    requires { n ≤ 43 }
{
    shared(s, n, n, 1);
    s[0] = 4;
    s[2] = 3;
    s[3] = (n + 2) as u8;
    placed(s, 3, 2, source, &(n + 1..n + 2), 0);
    s[672] = 0;
    s[679] = 1;
    chained(s, n + 1..n + 2, 0);
    u8::from(soundness::sound(s, 1))
}

// A store to send: two leaving records of one source with 25 and 20 pieces.
fn leaving(s: &mut [u8; 64740]) -> u8 {
    let _ = soundness::setup(s, 2);
    s[0] = 3;
    s[1] = 1;
    s[3] = 0;
    placed(s, 1, 3, 1, &(1..26), 32500);
    placed(s, 2, 3, 1, &(26..46), 26000);
    s[R1] = 2;
    s[R2] = 0;
    s[R1 + 7] = 25;
    s[R2 + 7] = 20;
    chained(s, 1..26, 1300);
    chained(s, 26..46, 1300);
    u8::from(soundness::sound(s, 2))
}

// The cells of one source, and of two.
fn sources(rt: &impl Print) -> io::Result<()> {
    let mut s = [0u8; 64740];
    println!(rt;
        "30 pieces of two records of a source: {}",
        splits(&mut s, 30, 1)
    )?;
    println!(rt;
        "31 pieces of two records of a source: {}",
        splits(&mut s, 31, 1)
    )?;
    println!(rt; "31 pieces of two sources: {}", splits(&mut s, 31, 2))?;
    println!(rt; "45 pieces of two sources: {}", splits(&mut s, 45, 2))?;
    println!(rt;
        "29 pieces, and a whole record's of the source: {}",
        with_whole(&mut s, 29, 1)
    )?;
    println!(rt;
        "30 pieces, and a whole record's of the source: {}",
        with_whole(&mut s, 30, 1)
    )?;
    println!(rt;
        "30 pieces, and a whole record's of another: {}",
        with_whole(&mut s, 30, 2)
    )?;
    println!(rt; "45 pieces of a source that leave: {}", leaving(&mut s))
}

// A store with records, and the bytes near it.
fn near(rt: &impl Print, s: &mut [u8; 5400], role: u64, other: u64) -> io::Result<()> {
    println!(rt; "  sound: {}", u8::from(soundness::sound(s, role)))?;
    println!(rt;
        "  in the other role: {}",
        u8::from(soundness::sound(s, other))
    )?;
    println!(rt; "  prefixes: {}", prefixes(s, role))?;
    head(rt, s, role)?;
    println!(rt; "  values of record 1: {}", all_values(s, R1..R2, role))?;
    println!(rt; "  values of record 2: {}", all_values(s, R2..672, role))?;
    println!(rt;
        "  values of cell 1, its first 16 bytes: {}",
        all_values(s, C1..C1 + 16, role)
    )?;
    println!(rt;
        "  values of cell 2, its first 16 bytes: {}",
        all_values(s, C2..C2 + 16, role)
    )
}

fn main(rt: HostRuntime) -> io::Result<()> {
    let mut all = [255u8; 64741];
    println!(&rt; "255s, role 1: {}", prefixes(&all, 1))?;
    for role in [1, 2, 3, 0] {
        let n = fresh(&mut all, role);
        println!(&rt; "fresh stores of a length to 64741, role {role}: {n}")?;
    }
    let mut s = [0u8; 5400];
    for role in [1, 0] {
        println!(&rt; "zeros, role {role}: {}", prefixes(&s, role))?;
    }
    println!(&rt; "fresh, to receive")?;
    let _ = soundness::setup(&mut s, 1);
    near(&rt, &mut s, 1, 2)?;
    println!(&rt; "with an arriving and a whole record")?;
    received(&mut s);
    near(&rt, &mut s, 1, 2)?;
    println!(&rt; "with a leaving record")?;
    sent(&mut s);
    near(&rt, &mut s, 2, 1)?;
    chains(&rt)?;
    sources(&rt)
}
