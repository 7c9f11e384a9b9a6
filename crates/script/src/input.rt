// Reading inputs: a length and letters, or one number alone.

ghost use Rattle.std.specs.Prelude.{◌≡◌, true, ◌&&◌, ◌≤◌, suc, leb, option_map, unwrap_or, IfSome};
ghost use Rattle.std.specs.Bool.{then_some};
ghost use Rattle.octets.specs.Lists.{all};
ghost use Rattle.machine.specs.Limits.{longest};
ghost use Rattle.script.specs.Input.{line, behind, is_digit, is_letter, value, decimal};
ghost use Rattle.script.specs.Script.{script_of, number_of};

// What an input asks for: the length of a survey, and letters.
#[derive(Clone, Copy)]
pub struct Script<'a> {
    pub length: usize,
    pub letters: &'a [u8],
}

const LINE_FEED: u8 = b'\n';

// The longest survey.
pub const LONGEST: usize = 32500;

const MOST_LETTERS: usize = 2000;

// The first line, and what is behind it.
fn cut_line(s: &[u8]) -> (&[u8], &[u8])
    ensures { (result.0.now ≡ line s.now) × (result.1.now ≡ behind s.now) }
{
    match s.iter().position(|&b| b == LINE_FEED) {
        Some(end) => (&s[..end], &s[end + 1..]),
        None => (s, &[]),
    }
}

// `all_letters` is another function: each is one call of the library's, and has its own contract.
fn all_digits(s: &[u8]) -> bool
    ensures { result ≡ all is_digit s.now }
{
    s.iter().all(|b| b.is_ascii_digit())
}

// Whether these are a decimal number.
#[tactic(auto, unfolding(crate::specs::Input::decimal))]
fn is_decimal(s: &[u8]) -> bool
    ensures { result ≡ decimal s.now }
{
    let [first, rest @ ..] = s else {
        return false;
    };
    (rest.is_empty() || *first != b'0') && all_digits(s)
}

// The number that digits make, up to the longest survey's length.
fn number(digits: &[u8]) -> Option<usize>
    requires { all is_digit digits.now ≡ true }
    ensures { result ≡ then_some (leb (value 0 digits.now) longest) (value 0 digits.now) }
{
    let mut n = 0;
    for &digit in digits {
        n = 10 * n + usize::from(digit - b'0');
        if n > LONGEST {
            return None;
        }
    }
    Some(n)
}

fn all_letters(s: &[u8]) -> bool
    ensures { result ≡ all is_letter s.now }
{
    s.iter().all(|b| matches!(b, b'D' | b'L' | b'R'))
}

// The length in a line: a decimal up to the longest survey's.
#[tactic(auto, using(crate::proofs::Lines::decimal_digits))]
fn length(line: &[u8]) -> Option<usize>
    ensures { result ≡ then_some (decimal line.now && leb (value 0 line.now) longest) (value 0 line.now) }
{
    if !is_decimal(line) {
        return None;
    }
    number(line)
}

// Reads an input: none where it is none.
#[tactic(auto, unfolding(crate::specs::Input::is_input))]
pub fn parse(input: &[u8]) -> Option<Script<'_>>
    ensures { option_map (λ s. (s.length, s.letters.now)) result ≡ script_of input.now }
{
    let (first, rest) = cut_line(input);
    // before the second line is looked for: what is no length is refused at the cost of its own line
    let length = length(first)?;
    let (letters, behind) = cut_line(rest);
    if letters.len() > MOST_LETTERS || !all_letters(letters) || !behind.is_empty() {
        return None;
    }
    Some(Script { length, letters })
}

// The number of an input that is one decimal up to 32,500 alone; none for any other input.
#[tactic(auto, unfolding(crate::specs::Input::is_one_number, crate::specs::Script::number_of))]
pub fn one_number(input: &[u8]) -> Option<usize>
    ensures value { unwrap_or result (suc longest) ≡ number_of input.now }
    ensures most { IfSome result (λ n. n ≤ longest) }
{
    let (line, behind) = cut_line(input);
    if !behind.is_empty() {
        return None;
    }
    length(line)
}
