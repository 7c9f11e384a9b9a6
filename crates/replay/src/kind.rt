// The kinds of lines, and how many of each a list has.

use std::fmt;

// A call, or what is told of one. Its number is its place in the counts.
#[derive(Clone, Copy, PartialEq, Eq)]
pub(crate) enum Kind {
    Push,
    Packet,
    Wake,
    Report,
    Take,
    Rules,
    Known,
    Number,
    Sent,
    Shown,
    Woke,
    Unseen,
}

impl Kind {
    const COUNT: usize = 12;

    // The kind of a line with these words, if it has one.
    pub(crate) fn of(words: &[&[u8]]) -> Option<Kind> {
        let (first, rest) = words.split_first()?;
        let kind = match *first {
            b"push" => Kind::Push,
            b"packet" => Kind::Packet,
            b"wake" => Kind::Wake,
            b"report" => Kind::Report,
            b"take" => Kind::Take,
            b"rules" => Kind::Rules,
            b"known" => Kind::Known,
            b"number" => Kind::Number,
            b">" => Kind::Sent,
            b"=" => Kind::Shown,
            b"woke" if matches!(rest, [b"unseen"]) => Kind::Unseen,
            b"woke" => Kind::Woke,
            _ => return None,
        };
        Some(kind)
    }

    // Whether it tells of a call; the others are calls.
    pub(crate) fn tells(self) -> bool {
        matches!(
            self,
            Kind::Number | Kind::Sent | Kind::Shown | Kind::Woke | Kind::Unseen
        )
    }
}

// How many lines of each kind agree.
#[derive(Clone, Copy)]
pub(crate) struct Counts([u64; Kind::COUNT]);

impl Counts {
    pub(crate) const NONE: Counts = Counts([0; Kind::COUNT]);

    // One more line of that kind.
    pub(crate) fn add(&mut self, kind: Kind) {
        let place = kind as usize;
        self.0[place] = self.0[place].wrapping_add(1);
    }
}

impl fmt::Display for Counts {
    fn fmt<W: fmt::Write>(&self, f: &mut fmt::Formatter<W>) -> fmt::Result {
        let [push, packet, wake, report, take, rules, known, ..] = self.0;
        let [.., number, sent, shown, woke, unseen] = self.0;
        write!(f, "push {push}, packet {packet}, wake {wake}, ")?;
        write!(f, "report {report}, take {take}, rules {rules}, ")?;
        write!(f, "known {known}; number {number}, > {sent}, ")?;
        write!(f, "= {shown}, woke {woke}, unseen {unseen}")
    }
}
