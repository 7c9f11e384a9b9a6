// What the words of a list say: numbers and bytes.

ghost use Rattle.std.specs.Prelude.{◌≤◌, length, IfSome};

use crate::room;

// The value of a hexadecimal digit; no capital is one, as it is for `char::to_digit`.
fn digit(b: u8) -> Option<u8>
    ensures { IfSome result (λ d. d ≤ 15) }
{
    match b {
        b'0'..=b'9' => Some(b - b'0'),
        b'a'..=b'f' => Some(b - b'a' + 10),
        _ => None,
    }
}

// The byte that two digits say.
fn byte(high: u8, low: u8) -> Option<u8> {
    Some(16 * digit(high)? + digit(low)?)
}

// The digits of as many bytes as `out` has, which then holds them.
fn hex(word: &[u8], out: &mut [u8]) -> Option<()> {
    let (pairs, []) = word.as_chunks::<2>() else {
        return None;
    };
    if pairs.len() != out.len() {
        return None;
    }
    for (b, [high, low]) in out.iter_mut().zip(pairs) {
        *b = byte(*high, *low)?;
    }
    Some(())
}

// Digits, or a run `xx*N`, which is N times the byte xx. Its bytes go to the front of `out`; answers how many
// there are.
fn piece(word: &[u8], out: &mut [u8]) -> Option<usize>
    ensures { IfSome result (λ n. n ≤ length out.old) }
{
    match word {
        [] => None,
        [high, low, b'*', times @ ..] => {
            let n = usize::try_from(number(times)?).ok()?;
            out.get_mut(..n)?.fill(byte(*high, *low)?);
            Some(n)
        }
        digits => {
            let n = digits.len() / 2;
            hex(digits, out.get_mut(..n)?)?;
            Some(n)
        }
    }
}

// An id, an address or a key.
pub(crate) fn name<const N: usize>(word: &[u8]) -> Option<[u8; N]> {
    let mut out = [0u8; N];
    hex(word, &mut out)?;
    Some(out)
}

// The number that decimal digits say; none has a sign, as it may for `parse`.
pub(crate) fn number(word: &[u8]) -> Option<u64> {
    if word.is_empty() {
        return None;
    }
    let mut n: u64 = 0;
    for b in word {
        if !b.is_ascii_digit() {
            return None;
        }
        n = n.checked_mul(10)?.checked_add(u64::from(*b - b'0'))?;
    }
    Some(n)
}

// Bytes: digits and runs with dots between them, or `-` for none. They are put into `out`.
pub(crate) fn bytes<'a>(word: &[u8], out: &'a mut [u8]) -> Option<&'a [u8]> {
    let mut n: usize = 0;
    if !matches!(word, b"-") {
        for part in word.split(|b| *b == b'.') {
            n += piece(part, out.get_mut(n..)?)?;
        }
    }
    out.get(..n)
}

// 0 or 1.
pub(crate) fn flag(word: &[u8]) -> Option<u64> {
    match word {
        b"0" => Some(0),
        b"1" => Some(1),
        _ => None,
    }
}

// The number of the bytes, the highest first.
fn joined(s: &[u8]) -> u64 {
    s.iter().fold(0, |n, b| (n << 8) | u64::from(*b))
}

// Whether the word says these bytes.
pub(crate) fn is_bytes(word: &[u8], s: &[u8]) -> bool {
    let mut out = [0u8; room::MESSAGE];
    bytes(word, &mut out).is_some_and(|said| said == s)
}

// Whether the word says the number of these bytes.
pub(crate) fn is_number(word: &[u8], s: &[u8]) -> bool {
    number(word).is_some_and(|said| said == joined(s))
}
