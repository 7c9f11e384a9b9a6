// The lines of a list, and their words.

ghost use Rattle.std.specs.Prelude.{◌≤◌};

// One more than the most words of a form, a report's.
const MOST: usize = 10;

// The words of a line, with one space between two: all, or the first ten of a line that has more. No form but
// that of `known`, which key.rt reads, has as many. An array and a count, since a line's words need no heap.
#[derive(Clone, Copy)]
pub(crate) struct Words<'a> {
    words: [&'a [u8]; MOST],
    count: usize,
    ghost few: { count ≤ 10 },
}

impl<'a> Words<'a> {
    pub(crate) fn of(line: &'a [u8]) -> Words<'a> {
        let mut words = [&line[..0]; MOST];
        for (slot, word) in words.iter_mut().zip(line.split(|b| *b == b' ')) {
            *slot = word;
        }
        Words {
            words,
            count: line.split(|b| *b == b' ').count().min(MOST),
        }
    }

    pub(crate) fn as_slice(&self) -> &[&'a [u8]] {
        &self.words[..self.count]
    }
}

// Whether a line says anything: it is not empty and no comment.
pub(crate) fn says(line: &[u8]) -> bool {
    !matches!(line, [] | [b'#', ..])
}
