// The run: the push, and a round.

ghost use Rattle.std.specs.Prelude.{◌≡◌, ◌≤◌};
ghost use Rattle.machine.specs.Limits.{longest};
ghost use Rattle.lesson.specs.Lesson.{pushed, round};
ghost use Rattle.lesson.specs.Steps.{at_rest};

use crate::room::{OFFICE, RUN, Room, TABLET, run_length};
use calendar::ALWAYS;
use script::LONGEST;

// The survey's id.
pub const ID: [u8; 8] = [0, 0, 0, 0, 0, 0, 0, 1];

// The most bytes of a push's run.
const INIT_RUN: usize = 310;

impl Room<'_> {
    // The push of a survey of n bytes.
    pub fn push(&mut self, n: usize)
        requires { n ≤ longest }
        ensures { at_rest self.new ≡ pushed n (at_rest self.old) }
    {
        let survey = [0u8; LONGEST];
        let mut run = [0u8; INIT_RUN];
        let count = run_length(message::push(
            &mut self.nodes.tablet.send,
            &ID,
            0,
            &TABLET,
            &OFFICE,
            &[],
            &survey[..n],
            0,
            0,
            &mut run,
        ));
        self.settle(&run[..count]);
    }

    // Round k: one wake at 100 × k.
    pub fn round(&mut self, k: u8)
        ensures { at_rest self.new ≡ round k (at_rest self.old) }
    {
        let clock = 100 * u64::from(k);
        let mut run = [0u8; RUN];
        let count = run_length(message::wake(
            &mut self.nodes.tablet.send,
            1,
            &ID,
            clock,
            &ALWAYS,
            clock,
            &mut run,
        ));
        self.settle(&run[..count]);
    }
}
