// What a list tells of a call, compared with the library's answer.

use crate::kind::Kind;
use crate::room::{RUN, TAKEN};
use crate::{shown, value};
use answer::{Answer, Done, Refusal};
use link::entry::{Entries, frame_of, from_of, is_whole, to_of};
use std::fmt;

// What is wrong with a line.
#[derive(Clone, Copy)]
pub(crate) enum Why {
    // It is not of the form.
    Form,
    // The library's number, or wake mark, is this one.
    Number(u64),
    Mark(u64),
    // This word is not what the library gives.
    Word(u64),
    // The library puts out no such packet, or one more.
    Fewer,
    More,
    // The library gives no report or message, or the list has none.
    Nothing,
    Something,
}

impl fmt::Display for Why {
    fn fmt<W: fmt::Write>(&self, f: &mut fmt::Formatter<W>) -> fmt::Result {
        match *self {
            Why::Form => write!(f, "it is not of the form"),
            Why::Number(n) => write!(f, "the library's number is {n}"),
            Why::Mark(n) => write!(f, "the library's wake mark is {n}"),
            Why::Word(k) => write!(f, "word {k} is not what the library gives"),
            Why::Fewer => write!(f, "the library puts out no such packet"),
            Why::More => write!(f, "the library puts out more packets"),
            Why::Nothing => write!(f, "the library shows nothing"),
            Why::Something => write!(f, "the library shows a report or a message"),
        }
    }
}

// What calls put out: a run of packets, and a report or the message that was taken.
#[derive(Drop)]
pub(crate) struct Output {
    pub(crate) run: [u8; RUN],
    pub(crate) shown: [u8; TAKEN],
}

// A call that was made: its line's number and its kind, the library's answer, and what the lines have told of
// it so far.
#[derive(Clone, Copy)]
pub(crate) struct Call {
    pub(crate) line: usize,
    kind: Kind,
    // As numbers, since those are what lists tell.
    answer: Answer,
    numbered: bool,
    shown: bool,
    woke: bool,
    // The bytes of the packets that were told.
    sent: usize,
}

impl Call {
    // Nothing is told of it yet.
    pub(crate) fn new(line: usize, kind: Kind, outcome: Result<Done, Refusal>) -> Call {
        Call {
            line,
            kind,
            answer: outcome.into(),
            numbered: false,
            shown: false,
            woke: false,
            sent: 0,
        }
    }

    // A refusal is told before all else.
    fn refusal_told(&self) -> Result<(), Why> {
        if self.numbered || self.answer.number == 0 {
            return Ok(());
        }
        Err(Why::Number(self.answer.number))
    }

    // `number N`.
    fn number(&mut self, words: &[&[u8]]) -> Result<(), Why> {
        let [_, number] = words else {
            return Err(Why::Form);
        };
        let number = value::number(number).ok_or(Why::Form)?;
        if self.numbered {
            return Err(Why::Form);
        }
        if number != self.answer.number {
            return Err(Why::Number(self.answer.number));
        }
        self.numbered = true;
        Ok(())
    }

    // `woke yes`, `woke no` or `woke unseen`, with which any mark agrees.
    fn woke(&mut self, words: &[&[u8]]) -> Result<(), Why> {
        if self.woke || self.kind != Kind::Packet {
            return Err(Why::Form);
        }
        let mark = match words {
            [_, b"yes"] => 1,
            [_, b"no"] => 0,
            [_, b"unseen"] => self.answer.wake,
            _ => return Err(Why::Form),
        };
        if mark != self.answer.wake {
            return Err(Why::Mark(self.answer.wake));
        }
        self.woke = true;
        Ok(())
    }

    // `> FROM TO BYTES`: the next packet of the run.
    fn sent(&mut self, words: &[&[u8]], run: &[u8; RUN]) -> Result<(), Why> {
        let [_, from, to, bytes] = words else {
            return Err(Why::Form);
        };
        let left = run.get(self.sent..self.answer.run as usize);
        let next = left.and_then(|left| Entries(left).next());
        let entry = next.filter(|entry| is_whole(entry)).ok_or(Why::Fewer)?;
        if !value::is_bytes(from, &from_of(entry)) {
            return Err(Why::Word(1));
        }
        if !value::is_bytes(to, &to_of(entry)) {
            return Err(Why::Word(2));
        }
        if !value::is_bytes(bytes, frame_of(entry)) {
            return Err(Why::Word(3));
        }
        self.sent += entry.len();
        Ok(())
    }

    // `= ..`: a report, or a message that was taken.
    fn shown(&mut self, words: &[&[u8]], out: &[u8; TAKEN]) -> Result<(), Why> {
        if self.answer.number != 0 {
            return Err(Why::Nothing);
        }
        if self.shown {
            return Err(Why::Form);
        }
        shown::compare(words, self.kind, out)?;
        self.shown = true;
        Ok(())
    }

    // A line of that kind, which tells of the call. But for packets, each thing is told once.
    pub(crate) fn tell(&mut self, kind: Kind, words: &[&[u8]], out: &Output) -> Result<(), Why> {
        if kind == Kind::Number {
            return self.number(words);
        }
        self.refusal_told()?;
        match kind {
            Kind::Sent => self.sent(words, &out.run),
            Kind::Shown => self.shown(words, &out.shown),
            // `woke ..`, with a mark or `unseen`.
            _ => self.woke(words),
        }
    }

    // Whether all is told: what is not told is number 0, no more packets, wake mark 0 and nothing shown.
    pub(crate) fn all_told(&self) -> Result<(), Why> {
        self.refusal_told()?;
        if self.sent as u64 != self.answer.run {
            return Err(Why::More);
        }
        if !self.woke && self.answer.wake != 0 {
            return Err(Why::Mark(self.answer.wake));
        }
        if !self.shown && self.answer.number == 0 && shown::is_shown(self.kind) {
            return Err(Why::Something);
        }
        Ok(())
    }
}
