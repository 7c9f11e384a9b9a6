// The end of a message that does not become whole: its deadline wakes.

use crate::play::Nodes;
use std::io;

// The clock of the first deadline wake, and of the second.
const FIRST: u64 = 305999;

const SECOND: u64 = 605999;

impl Nodes {
    // The tablet wakes at a deadline, and what it sends comes to the office. Answers with that.
    fn deadline<'a>(
        &mut self,
        rt: &impl Print,
        id: &[u8; 8],
        clock: u64,
        run: &'a mut [u8],
    ) -> io::Result<&'a [u8]> {
        let sent = self.tablet.wake(rt, 2, id, clock, run)?;
        self.deliver(rt, sent)?;
        self.tablet.report(rt, id)?;
        Ok(sent)
    }

    // The first deadline: the tablet gives the message up, and the office drops what has come of it. An aborted
    // packet that comes again finds no record there, and the tablet sends nothing more.
    pub(crate) fn give_up(&mut self, rt: &impl Print, id: &[u8; 8]) -> io::Result<()> {
        let mut run = [0u8; 10960];
        let aborted = self.deadline(rt, id, FIRST, &mut run)?;
        self.office.receive(rt, aborted)?;
        self.wakes(rt, id, FIRST, &mut run)
    }

    // A later deadline: the tablet drops the message, or has none.
    pub(crate) fn drop_it(&mut self, rt: &impl Print, id: &[u8; 8]) -> io::Result<()> {
        self.deadline(rt, id, SECOND, &mut [0; 46])?;
        Ok(())
    }
}
