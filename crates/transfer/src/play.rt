// A transfer, played between two nodes: the tablet that sends and the office that receives.

use crate::show;
use answer::{Done, Refusal};
use calendar::ALWAYS;
use link::entry::{Entries, frame_of, from_of, is_whole, to_of};
use std::io;

// The bytes of a store of 45 cells.
const STORE: usize = 64740;

// The longest reply.
const REPLY: usize = 86;

// The most wakes that a message gets.
const WAKES: u64 = 7;

// The rule book that admits the tablet's subnet to the topic and rejects all else.
const RULES: &[u8] = b"\x01\x05ducts\x01\x04\0\0\0\0\0\0\0\0\0\0\0\0\0\0\0\x20";

// A node's two stores.
#[derive(Drop)]
pub(crate) struct Node {
    pub(crate) recv: [u8; STORE],
    pub(crate) send: [u8; STORE],
}

#[derive(Drop)]
pub(crate) struct Nodes {
    pub(crate) tablet: Node,
    pub(crate) office: Node,
}

// What a call has put out.
pub(crate) fn put_out(run: &[u8], outcome: Result<Done, Refusal>) -> &[u8] {
    let length = outcome.map_or(0, |done| done.run as usize);
    &run[..length.min(run.len())]
}

// A fresh store, by the number of its role, which the line shows: 1 to receive, 2 to send.
fn fresh(rt: &impl Print, role: u64) -> io::Result<[u8; STORE]> {
    let mut store = [0u8; STORE];
    let made = message::setup(&mut store, role);
    print!(rt; "setup {role}")?;
    show::line(rt, made.into())?;
    Ok(store)
}

impl Node {
    // Fresh stores.
    fn fresh(rt: &impl Print) -> io::Result<Node> {
        Ok(Node {
            recv: fresh(rt, 1)?,
            send: fresh(rt, 2)?,
        })
    }

    // The packet of an entry of a run comes in, and its reply goes into `reply`.
    fn arrive<'a>(
        &mut self,
        rt: &impl Print,
        entry: &[u8],
        reply: &'a mut [u8; REPLY],
    ) -> io::Result<&'a [u8]> {
        let from = from_of(entry);
        let to = to_of(entry);
        let frame = frame_of(entry);
        show::packet(rt, &from, &to, frame)?;
        let got = message::packet(
            &mut self.recv,
            &mut self.send,
            frame,
            &from,
            &to,
            RULES,
            1,
            reply,
        );
        print!(rt; "  packet")?;
        show::line(rt, got.into())?;
        Ok(put_out(reply, got))
    }

    // The packets of a run come in, and no reply to them goes on.
    pub(crate) fn receive(&mut self, rt: &impl Print, run: &[u8]) -> io::Result<()> {
        for entry in Entries(run).filter(|entry| is_whole(entry)) {
            self.arrive(rt, entry, &mut [0; REPLY])?;
        }
        Ok(())
    }

    // A wake within hours, by the number of its kind, which the line shows: 1 to send, 2 at the deadline.
    // Answers with the packets that it sends.
    pub(crate) fn wake<'a>(
        &mut self,
        rt: &impl Print,
        kind: u64,
        id: &[u8; 8],
        clock: u64,
        run: &'a mut [u8],
    ) -> io::Result<&'a [u8]> {
        let woken = message::wake(&mut self.send, kind, id, clock, &ALWAYS, 0, run);
        print!(rt; "wake {kind} at {clock}")?;
        show::line(rt, woken.into())?;
        Ok(put_out(run, woken))
    }

    // What it reports on a message.
    pub(crate) fn report(&self, rt: &impl Print, id: &[u8; 8]) -> io::Result<()> {
        let mut out = [0u8; 44];
        let told = message::report(&self.send, id, &mut out);
        print!(rt; "report")?;
        show::answer(rt, told.into())?;
        if told.is_ok() {
            show::report(rt, &out)?;
        }
        println!(rt; "")
    }
}

impl Nodes {
    pub(crate) fn fresh(rt: &impl Print) -> io::Result<Nodes> {
        Ok(Nodes {
            tablet: Node::fresh(rt)?,
            office: Node::fresh(rt)?,
        })
    }

    // Each packet of a run comes to the office, and each reply back to the tablet.
    pub(crate) fn deliver(&mut self, rt: &impl Print, run: &[u8]) -> io::Result<()> {
        for entry in Entries(run).filter(|entry| is_whole(entry)) {
            let mut reply = [0u8; REPLY];
            let reply = self.office.arrive(rt, entry, &mut reply)?;
            self.tablet.receive(rt, reply)?;
        }
        Ok(())
    }

    // The tablet wakes from `start` on each 100 ms, until it sends nothing, and at most seven times.
    pub(crate) fn wakes(
        &mut self,
        rt: &impl Print,
        id: &[u8; 8],
        start: u64,
        run: &mut [u8],
    ) -> io::Result<()> {
        for turn in 0..WAKES {
            let clock = start.wrapping_add(100 * turn);
            let sent = self.tablet.wake(rt, 1, id, clock, run)?;
            if sent.is_empty() {
                return Ok(());
            }
            self.deliver(rt, sent)?;
        }
        Ok(())
    }
}
