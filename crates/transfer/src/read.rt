// The numbers in a packet or a record.

// The number of the n bytes at a, the highest first, or of those of them that are there.
pub(crate) fn number(s: &[u8], a: usize, n: usize) -> u64 {
    let bytes = s.iter().skip(a).take(n);
    bytes.fold(0, |number, byte| (number << 8) | u64::from(*byte))
}
