// A list, line by line: its calls are made, and what it tells of each is compared with the answer.

use crate::kind::{Counts, Kind};
use crate::make::Node;
use crate::room::{RUN, STORE, TAKEN};
use crate::text;
use crate::text::Words;
use crate::told::{Call, Output, Why};

// The first line that differs, by its number, and what is wrong with it.
#[derive(Clone, Copy)]
pub(crate) struct Difference {
    pub(crate) line: usize,
    pub(crate) why: Why,
}

impl Why {
    fn at(self, line: usize) -> Difference {
        Difference { line, why: self }
    }
}

// A list up to a line: the node, the last call with all that calls have put out, and how many lines agree.
#[derive(Drop)]
struct List<'s, 't> {
    node: Node<'s, 't>,
    last: Option<Call>,
    out: Output,
    counts: Counts,
}

impl<'s, 't> List<'s, 't> {
    fn new(node: Node<'s, 't>) -> Self {
        List {
            node,
            last: None,
            out: Output {
                run: [0; RUN],
                shown: [0; TAKEN],
            },
            counts: Counts::NONE,
        }
    }

    // Whether all is told of the last call.
    fn all_told(&self) -> Result<(), Difference> {
        let Some(call) = self.last else {
            return Ok(());
        };
        let line = call.line;
        call.all_told().map_err(|why| why.at(line))
    }

    // A line with a call.
    fn call(
        &mut self,
        kind: Kind,
        number: usize,
        line: &'t [u8],
        words: &[&'t [u8]],
    ) -> Result<(), Why> {
        let outcome = self.node.call(kind, line, words, &mut self.out);
        self.last = Some(Call::new(number, kind, outcome.ok_or(Why::Form)?));
        Ok(())
    }

    // A line that tells of the last call.
    fn tell(&mut self, kind: Kind, words: &[&[u8]]) -> Result<(), Why> {
        let mut call = self.last.ok_or(Why::Form)?;
        call.tell(kind, words, &self.out)?;
        self.last = Some(call);
        Ok(())
    }

    // The line with that number.
    fn step(&mut self, number: usize, line: &'t [u8]) -> Result<(), Difference> {
        let words = Words::of(line);
        let words = words.as_slice();
        let kind = Kind::of(words).ok_or(Why::Form.at(number))?;
        let outcome = if kind.tells() {
            self.tell(kind, words)
        } else {
            self.all_told()?;
            self.call(kind, number, line, words)
        };
        outcome.map_err(|why| why.at(number))?;
        self.counts.add(kind);
        Ok(())
    }
}

// The lines behind so many, with the calls of that node.
fn play<'t>(text: &'t [u8], first: usize, node: Node<'_, 't>) -> Result<Counts, Difference> {
    let mut list = List::new(node);
    for (at, line) in text.split(|b| *b == b'\n').enumerate().skip(first) {
        if text::says(line) {
            list.step(at + 1, line)?;
        }
    }
    list.all_told()?;
    Ok(list.counts)
}

// Replays a list, and counts its lines by their kinds.
pub(crate) fn replay(text: &[u8]) -> Result<Counts, Difference> {
    let mut lines = text.split(|b| *b == b'\n').enumerate();
    let Some((at, line)) = lines.find(|(_, line)| text::says(line)) else {
        return Err(Why::Form.at(text.split(|b| *b == b'\n').count()));
    };
    let number = at + 1;
    let mut recv = [0xeeu8; STORE];
    let mut send = [0xeeu8; STORE];
    match Node::fresh(line, &mut recv, &mut send) {
        Ok(node) => play(text, number, node),
        Err(why) => Err(why.at(number)),
    }
}
