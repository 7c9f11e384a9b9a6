// Writing numbers in decimal.
// A text is a buffer and a place in it: memory is fixed, and a contract says what is put at that place.

ghost use Rattle.std.specs.Prelude.{◌≡◌, ◌∷◌, [], ◌++◌, ◌+◌, ◌≤◌, length};
ghost use Rattle.octets.specs.Octets.{put};
ghost use Rattle.script.specs.Decimal.{decimal_of};

// A number in decimal, written at `at`; answers where it ends.
fn put_number(text: &mut [u8], at: usize, n: usize) -> usize
    requires { at + length (decimal_of n) ≤ length text.old }
    ensures { (text.new ≡ put text.old at (decimal_of n)) × (result ≡ at + length (decimal_of n)) }
{
    let last = if n < 10 {
        at
    } else {
        put_number(text, at, n / 10)
    };
    text[last] = b'0' + (n % 10) as u8;
    last + 1
}

// A number in decimal and the byte behind it, written at `at`; answers where they end.
pub fn put_item(text: &mut [u8], at: usize, n: usize, end: u8) -> usize
    requires { at + length (decimal_of n ++ (end ∷ [])) ≤ length text.old }
    ensures { let item = decimal_of n ++ (end ∷ []) in
        (text.new ≡ put text.old at item) × (result ≡ at + length item) }
{
    let last = put_number(text, at, n);
    text[last] = end;
    last + 1
}
