// The calls, each with a line for what came of it.

use crate::make::{Frame, Stores, id};
use crate::show;
use crate::show::is_kept;
use answer::Answer;
use calendar::ALWAYS;
use std::io;

// A wake of the id that ends in `key`: its kind, which may be none that there is, a calendar and a time.
#[derive(Clone, Copy)]
pub(crate) struct Wake<'a> {
    pub(crate) kind: u64,
    pub(crate) key: u8,
    pub(crate) calendar: &'a [u8],
    pub(crate) unix_ms: u64,
}

impl<const N: usize> Stores<N> {
    // The packet call, from 0x11.. to 0x22..
    pub(crate) fn packet<const R: usize>(
        &mut self,
        rt: &impl Print,
        what: &str,
        frame: &[u8],
        rules: &[u8],
        known: bool,
        run: &mut [u8; R],
    ) -> io::Result<()> {
        self.packet_from(rt, what, 0x11, frame, rules, known, run)
    }

    // The same from any sender, by the byte that its address has sixteen times.
    fn packet_from<const R: usize>(
        &mut self,
        rt: &impl Print,
        what: &str,
        sender: u8,
        frame: &[u8],
        rules: &[u8],
        known: bool,
        run: &mut [u8; R],
    ) -> io::Result<()> {
        let from = [sender; 16];
        let to = [0x22u8; 16];
        let known = u64::from(known);
        let old = *self;
        let old_run = *run;
        let recv = &mut self.recv;
        let got = message::packet(recv, &mut self.send, frame, &from, &to, rules, known, run);
        let a = Answer::from(got);
        show::line(rt, what, a, *self == old, is_kept(&old_run, run, a.run))
    }

    // The same of a whole frame, by this rule book.
    pub(crate) fn init(
        &mut self,
        rt: &impl Print,
        what: &str,
        frame: &Frame,
        rules: &[u8],
    ) -> io::Result<()> {
        self.packet(rt, what, frame, rules, true, &mut [0xee; 100])
    }

    // The same where everybody is admitted.
    pub(crate) fn frame(&mut self, rt: &impl Print, what: &str, frame: &Frame) -> io::Result<()> {
        self.init(rt, what, frame, b"\0")
    }

    // The same from any sender.
    pub(crate) fn frame_from(
        &mut self,
        rt: &impl Print,
        what: &str,
        sender: u8,
        frame: &Frame,
    ) -> io::Result<()> {
        self.packet_from(rt, what, sender, frame, b"\0", true, &mut [0xee; 100])
    }

    // The same where the source's key is not known.
    pub(crate) fn unknown(&mut self, rt: &impl Print, what: &str, frame: &Frame) -> io::Result<()> {
        self.packet(rt, what, frame, b"\0", false, &mut [0xee; 100])
    }

    // The push call, from 0x22.. to 0x11.., of an id that ends in `key`, with zeros for its times.
    pub(crate) fn push<const R: usize>(
        &mut self,
        rt: &impl Print,
        what: &str,
        key: u8,
        topic: &[u8],
        bytes: &[u8],
        run: &mut [u8; R],
    ) -> io::Result<()> {
        self.push_at(rt, what, key, topic, bytes, 0, 0, run)
    }

    // The push call, with its times.
    pub(crate) fn push_at<const R: usize>(
        &mut self,
        rt: &impl Print,
        what: &str,
        key: u8,
        topic: &[u8],
        bytes: &[u8],
        created: u64,
        try_ms: u64,
        run: &mut [u8; R],
    ) -> io::Result<()> {
        let from = [0x22u8; 16];
        let to = [0x11u8; 16];
        let old = self.send;
        let old_run = *run;
        let send = &mut self.send;
        let got = message::push(
            send,
            &id(key),
            0,
            &from,
            &to,
            topic,
            bytes,
            created,
            try_ms,
            run,
        );
        let a = Answer::from(got);
        show::line(rt, what, a, self.send == old, is_kept(&old_run, run, a.run))
    }

    // The wake call, within hours.
    pub(crate) fn wake<const R: usize>(
        &mut self,
        rt: &impl Print,
        what: &str,
        kind: u64,
        key: u8,
        run: &mut [u8; R],
    ) -> io::Result<()> {
        let wake = Wake {
            kind,
            key,
            calendar: &ALWAYS,
            unix_ms: 0,
        };
        self.wake_at(rt, what, wake, run)
    }

    // The wake call, with a calendar and a time.
    pub(crate) fn wake_at<const R: usize>(
        &mut self,
        rt: &impl Print,
        what: &str,
        wake: Wake<'_>,
        run: &mut [u8; R],
    ) -> io::Result<()> {
        let Wake {
            kind,
            key,
            calendar,
            unix_ms,
        } = wake;
        let old = self.send;
        let old_run = *run;
        let send = &mut self.send;
        let got = message::wake(send, kind, &id(key), 1000, calendar, unix_ms, run);
        let a = Answer::from(got);
        show::line(rt, what, a, self.send == old, is_kept(&old_run, run, a.run))
    }

    // The report call.
    pub(crate) fn report<const R: usize>(
        &self,
        rt: &impl Print,
        what: &str,
        key: u8,
        out: &mut [u8; R],
    ) -> io::Result<()> {
        let old_out = *out;
        let got = message::report(&self.send, &id(key), out);
        let written = if got.is_ok() { 44 } else { 0 };
        show::line(rt, what, got.into(), true, is_kept(&old_out, out, written))
    }

    // The take call, where the oldest whole message has that length.
    pub(crate) fn take<const T: usize, const R: usize>(
        &mut self,
        rt: &impl Print,
        what: &str,
        length: u64,
        taken: &mut [u8; T],
        run: &mut [u8; R],
    ) -> io::Result<()> {
        let old = self.recv;
        let old_taken = *taken;
        let old_run = *run;
        let got = message::take(&mut self.recv, taken, run);
        let written = if got.is_ok() {
            length.wrapping_add(328)
        } else {
            0
        };
        let a = Answer::from(got);
        let buffers = is_kept(&old_run, run, a.run) & is_kept(&old_taken, taken, written);
        show::line(rt, what, a, self.recv == old, buffers)
    }
}
