// The plain sum of an input as a line of text.

ghost use Rattle.std.specs.Prelude.{◌≡◌, ◌<◌, [], unwrap_or};
ghost use Rattle.sums.specs.Line.{hex_digit, hexadecimal, sum_line};

// The longest input, the digits of a sum, and the bytes of a line.
pub const LONGEST: usize = 65536;

const DIGITS: usize = 64;

pub const BYTES: usize = DIGITS + 1;

// The hexadecimal digit of a number below 16. By hand, since what is exported rests on the standard library alone.
fn digit(n: u8) -> u8
    requires { n < 16 }
    ensures { result ≡ hex_digit n }
{
    if n <= 9 { b'0' + n } else { b'a' - 10 + n }
}

// A sum in hexadecimal.
fn hexadecimal(sum: [u8; 32]) -> [u8; 64]
    ensures { result ≡ hexadecimal sum }
{
    let mut text = [0u8; 64];
    for i in 0..32 {
        text[2 * i] = digit(sum[i] / 16);
        text[2 * i + 1] = digit(sum[i] % 16);
    }
    text
}

// The sum of the input in hexadecimal and a line feed; none for an input that is too long.
#[tactic(auto, unfolding(crate::specs::Line::sum_line))]
pub fn line(input: &[u8]) -> Option<[u8; BYTES]>
    ensures { unwrap_or result [] ≡ sum_line input.now }
{
    if input.len() > LONGEST {
        return None;
    }
    let mut line = [b'\n'; BYTES];
    line[..DIGITS].copy_from_slice(&hexadecimal(blake3::hash(input)));
    Some(line)
}
