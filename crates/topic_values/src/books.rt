// Rule books: each way to be malformed, and each way to be answered. The expected refusal numbers were made
// from PROTOCOL by a reader in Python that tests addresses with the module ipaddress. Addresses are 16
// letters: the source NEAR starts with the first 32 bits of abcdefghijklmnop, and FAR differs from it in
// the last of those; prefix bits are \x20 (32), \x80 (128), \x81 and 0.
ghost use Rattle.std.specs.Prelude.{◌≤◌, length, IfOk};

use std::io;
use topic::Admission::{self, Closed, Malformed, Open};
use topic::admission;

const NEAR: &[u8; 16] = b"abcdABCDABCDABCD";

const FAR: &[u8; 16] = b"abceABCDABCDABCD";

// A book, a topic and a source, and the expected answer.
type Case<'a> = (&'a [u8], &'a [u8], &'a [u8; 16], Admission);

// Books that are none.
const MALFORMED: [Case; 10] = [
    // No byte; a first byte that is neither 0 nor 1.
    (b"", b"t", NEAR, Malformed),
    (b"\x02", b"t", NEAR, Malformed),
    // An entry that is cut: in its topic, before its subnet count, before its prefix bits, before its second subnet.
    (b"\0\x02t", b"t", NEAR, Malformed),
    (b"\0\x01t", b"t", NEAR, Malformed),
    (b"\0\x01t\x01abcdefghijklmnop", b"t", NEAR, Malformed),
    (b"\0\x01t\x02abcdefghijklmnop\x20", b"t", NEAR, Malformed),
    // More than 128 prefix bits.
    (b"\0\x01t\x01abcdABCDABCDABCD\x81", b"t", NEAR, Malformed),
    // A topic twice, also one that is not asked for.
    (b"\0\x01t\0\x01t\0", b"t", NEAR, Malformed),
    (b"\0\x01a\0\x01b\0\x01a\0", b"t", NEAR, Malformed),
    // A cut entry behind the one of a closed topic.
    (b"\0\x01t\0\x01", b"t", NEAR, Malformed),
];

// Topics without an entry: the first byte accepts or rejects them.
const UNLISTED: [Case; 6] = [
    (b"\0", b"t", NEAR, Open),
    (b"\x01", b"t", NEAR, Closed),
    // Other entries, also one whose topic starts with another.
    (b"\0\x01a\0\x02ab\0\x01b\0", b"t", NEAR, Open),
    // The start of a listed topic, a longer one, and the topic of no bytes.
    (b"\x01\x05topic\x01abcdefghijklmnop\x20", b"t", NEAR, Closed),
    (b"\x01\x01t\x01abcdefghijklmnop\x20", b"topic", NEAR, Closed),
    (b"\0\x01t\0", b"", NEAR, Open),
];

// Topics with an entry: a source in one of the subnets is admitted, another not.
const LISTED: [Case; 8] = [
    (b"\x01\x01t\x01abcdefghijklmnop\x20", b"t", NEAR, Open),
    (b"\0\x01t\x01abcdefghijklmnop\x20", b"t", FAR, Closed),
    // In the second subnet, in the second entry, and by all 128 bits.
    (
        b"\x01\x01t\x02abceefghijklmnop\x20abcdefghijklmnop\x20",
        b"t",
        NEAR,
        Open,
    ),
    (
        b"\x01\x01a\x01abceefghijklmnop\x20\x01t\x01abcdefghijklmnop\x20",
        b"t",
        NEAR,
        Open,
    ),
    (b"\x01\x01t\x01abcdABCDABCDABCD\x80", b"t", NEAR, Open),
    // Without subnets nobody is admitted, with prefix 0 everybody is.
    (b"\0\x01t\0", b"t", NEAR, Closed),
    (b"\x01\x01t\x01abcdefghijklmnop\0", b"t", FAR, Open),
    // The topic of no bytes.
    (b"\x01\0\x01abcdefghijklmnop\x20", b"", NEAR, Open),
];

// The refusal number of an answer.
fn number(answer: Admission) -> u64 {
    match answer {
        Malformed => 3,
        Closed => 4,
        Open => 0,
    }
}

// Writes the answer of each case, and gives how many are the expected ones.
fn ask(rt: &impl Print, cases: &[Case]) -> io::Result<usize>
    ensures { IfOk result (λ n. n ≤ length cases.now) }
{
    for &(book, topic, source, _) in cases {
        let found = number(admission(book, topic, source));
        println!(rt; "book of {} bytes: {found}", book.len())?;
    }
    let right = cases
        .iter()
        .filter(|&&(book, topic, source, expected)| admission(book, topic, source) == expected)
        .count();
    Ok(right)
}

// Runs all of them, and writes how many answers are the expected ones.
pub(crate) fn run(rt: &impl Print) -> io::Result<()> {
    // A topic of 255 bytes that is listed with a subnet of prefix 0, and one of 254 that is not listed.
    let mut longest = [b'x'; 275];
    longest[..2].copy_from_slice(b"\x01\xff");
    longest[257] = 1;
    longest[274] = 0;
    let topic = [b'x'; 255];
    let long: [Case; 2] = [
        (&longest, &topic, NEAR, Open),
        (&longest, &topic[..254], NEAR, Closed),
    ];
    let right = ask(rt, &MALFORMED)? + ask(rt, &UNLISTED)? + ask(rt, &LISTED)? + ask(rt, &long)?;
    println!(rt; "{right} as expected")
}
