// Prefix vectors: addresses against the net 2001:db8:85a3:8d3:1319:8a2e:370:7348. For each prefix length
// there is an address with all bits past the prefix turned over, one with the first of those, and one with
// the last bit of the prefix. Whether an address is inside was computed with Python's module ipaddress:
// ip_address(source) in ip_network((net, bits), strict=False).
use std::io;
use topic::subnet::contains;

const NET: u128 = 0x20010db885a308d313198a2e03707348;

// Prefix bits, an address, and whether it should be inside.
const CASES: [(u8, u128, bool); 27] = [
    // In the first two bytes.
    (0, 0xdffef2477a5cf72cece675d1fc8f8cb7, true),
    (0, 0xa0010db885a308d313198a2e03707348, true),
    (1, 0x5ffef2477a5cf72cece675d1fc8f8cb7, true),
    (1, 0x60010db885a308d313198a2e03707348, true),
    (1, 0xa0010db885a308d313198a2e03707348, false),
    (7, 0x21fef2477a5cf72cece675d1fc8f8cb7, true),
    (7, 0x21010db885a308d313198a2e03707348, true),
    (7, 0x22010db885a308d313198a2e03707348, false),
    (8, 0x20fef2477a5cf72cece675d1fc8f8cb7, true),
    (8, 0x20810db885a308d313198a2e03707348, true),
    (8, 0x21010db885a308d313198a2e03707348, false),
    (9, 0x207ef2477a5cf72cece675d1fc8f8cb7, true),
    (9, 0x20410db885a308d313198a2e03707348, true),
    (9, 0x20810db885a308d313198a2e03707348, false),
    // Around the middle.
    (63, 0x20010db885a308d2ece675d1fc8f8cb7, true),
    (63, 0x20010db885a308d213198a2e03707348, true),
    (63, 0x20010db885a308d113198a2e03707348, false),
    (64, 0x20010db885a308d3ece675d1fc8f8cb7, true),
    (64, 0x20010db885a308d393198a2e03707348, true),
    (64, 0x20010db885a308d213198a2e03707348, false),
    (65, 0x20010db885a308d36ce675d1fc8f8cb7, true),
    (65, 0x20010db885a308d353198a2e03707348, true),
    (65, 0x20010db885a308d393198a2e03707348, false),
    // In the last bits.
    (127, 0x20010db885a308d313198a2e03707349, true),
    (127, 0x20010db885a308d313198a2e0370734a, false),
    (128, 0x20010db885a308d313198a2e03707348, true),
    (128, 0x20010db885a308d313198a2e03707349, false),
];

fn is_inside(bits: u8, source: u128) -> bool {
    contains(&NET.to_be_bytes(), bits, &source.to_be_bytes())
}

// Writes the answer for each address, and how many are the expected ones.
pub(crate) fn run(rt: &impl Print) -> io::Result<()> {
    for &(bits, source, _) in &CASES {
        let place = if is_inside(bits, source) {
            "inside"
        } else {
            "outside"
        };
        println!(rt; "{bits} {place}")?;
    }
    let right = CASES
        .iter()
        .filter(|&&(bits, source, expected)| is_inside(bits, source) == expected)
        .count();
    println!(rt; "{right} as expected")
}
