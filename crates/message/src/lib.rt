// The calls of the message transfer, on two stores that the caller lends: setup, packet, push, wake, report
// and take. They ask nothing of their arguments: any bytes and numbers get an answer of PROTOCOL's, and a
// refusal changes nothing.

#![tactic(auto)]

mod fresh;
mod receive;
mod send;
mod step;

pub use fresh::setup;
pub use receive::{packet, take};
pub use send::{push, report, wake};
