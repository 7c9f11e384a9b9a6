// Whole transfers: a message is pushed at the tablet, sent, and taken at the office.

ghost use Rattle.std.specs.Prelude.{◌≤◌};

use crate::play::{Nodes, put_out};
use crate::{read, show};
use std::io;

// The longest message.
const LONGEST: usize = 32500;

// The bytes of a record, which stand before the data of a message that is taken, and where its length stands.
const RECORD: usize = 328;

const LENGTH: usize = 48;

// When each message is created, how long it is tried, and the clock of its first wake.
const CREATED: u64 = 5999;

const TRY: u64 = 30001;

const START: u64 = 6000;

const TABLET: [u8; 16] = [4, 0, 0, 0, 0, 0, 0, 0, 0, 0, 0, 0, 0, 0, 0, 1];

const OFFICE: [u8; 16] = [5, 0, 0, 0, 0, 0, 0, 0, 0, 0, 0, 0, 0, 0, 0, 2];

// A message to be pushed.
#[derive(Clone, Copy)]
pub(crate) struct Message<'a> {
    pub(crate) id: [u8; 8],
    pub(crate) reply: bool,
    pub(crate) bytes: &'a [u8],
}

// The data of the message with that key: byte i is 7 i + key, modulo 251.
fn pattern(key: u8) -> [u8; LONGEST] {
    let mut out = [0u8; LONGEST];
    for (i, byte) in out.iter_mut().enumerate() {
        *byte = ((7 * i + usize::from(key)) % 251) as u8;
    }
    out
}

// Whether what was taken is the data.
fn is_data(taken: &[u8; RECORD + LONGEST], sent: &[u8]) -> bool {
    read::number(taken, LENGTH, 8) == sent.len() as u64 && taken[RECORD..].starts_with(sent)
}

impl Nodes {
    // The office takes a message, says whether it is the one that was sent, and the read packet goes to the
    // tablet.
    fn take(&mut self, rt: &impl Print, sent: &[u8]) -> io::Result<()> {
        let mut taken = [0u8; RECORD + LONGEST];
        let mut run = [0u8; 46];
        let got = message::take(&mut self.office.recv, &mut taken, &mut run);
        print!(rt; "take")?;
        show::answer(rt, got.into())?;
        if got.is_err() {
            return println!(rt; "");
        }
        show::record(rt, &taken)?;
        if is_data(&taken, sent) {
            println!(rt; ", as pushed")?;
        } else {
            println!(rt; ", NOT as pushed")?;
        }
        self.tablet.receive(rt, put_out(&run, got))
    }

    // The tablet pushes a message and reports on it, and its init comes to the office.
    fn push(&mut self, rt: &impl Print, sent: Message<'_>, run: &mut [u8]) -> io::Result<()> {
        let Message { id, reply, bytes } = sent;
        let reply = u64::from(reply);
        let send = &mut self.tablet.send;
        let pushed = message::push(
            send, &id, reply, &TABLET, &OFFICE, b"ducts", bytes, CREATED, TRY, run,
        );
        print!(rt; "push")?;
        show::line(rt, pushed.into())?;
        self.deliver(rt, put_out(run, pushed))?;
        self.tablet.report(rt, &id)
    }

    // A message is pushed, and no more of it is sent.
    pub(crate) fn announce(&mut self, rt: &impl Print, sent: Message<'_>) -> io::Result<()> {
        self.push(rt, sent, &mut [0; 310])
    }

    // The whole transfer of a message of that length: it is pushed, the tablet wakes until it has nothing to
    // send, and the office takes it.
    pub(crate) fn transfer(
        &mut self,
        rt: &impl Print,
        key: u8,
        length: usize,
        reply: bool,
    ) -> io::Result<()>
        requires { length ≤ 32500 }
    {
        println!(rt; "message {key} of {length} bytes")?;
        let data = pattern(key);
        let bytes = &data[..length];
        let id = [0, 0, 0, 0, 0, 0, 0, key];
        let mut run = [0u8; 10960];
        self.push(rt, Message { id, reply, bytes }, &mut run)?;
        self.wakes(rt, &id, START, &mut run)?;
        self.tablet.report(rt, &id)?;
        self.take(rt, bytes)?;
        self.tablet.report(rt, &id)
    }
}
