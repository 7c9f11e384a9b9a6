// The scripted link: the packets of a run, and the queue in which those that are not lost wait.

#![tactic(auto)]

pub mod entry;
pub mod queue;
