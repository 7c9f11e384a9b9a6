// Plays whole transfers of messages between a tablet and an office, and writes a trace: each call's answer
// and each packet. Of one more message only the init comes, and it ends at its deadline.
// tools/message_model.py computes the same trace from PROTOCOL without this library.

#![tactic(auto)]

mod deadline;
mod play;
mod read;
mod show;
mod whole;

use play::Nodes;
use std::io;
use whole::Message;

// The transfers of all messages: the fourth is a reply.
fn transfers(rt: &impl Print, nodes: &mut Nodes) -> io::Result<()> {
    nodes.transfer(rt, 1, 0, false)?;
    nodes.transfer(rt, 2, 1, false)?;
    nodes.transfer(rt, 3, 1300, false)?;
    nodes.transfer(rt, 4, 1550, true)?;
    nodes.transfer(rt, 5, 32500, false)?;
    nodes.transfer(rt, 6, 1301, false)
}

// A message that is announced and goes no further, up to its deadlines.
fn deadlines(rt: &impl Print, nodes: &mut Nodes) -> io::Result<()> {
    println!(rt; "message 7 of 4 bytes, of which only the init comes")?;
    let late = Message {
        id: [0, 0, 0, 0, 0, 0, 0, 7],
        reply: false,
        bytes: b"late",
    };
    nodes.announce(rt, late)?;
    nodes.give_up(rt, &late.id)?;
    nodes.drop_it(rt, &late.id)?;
    nodes.drop_it(rt, &late.id)
}

fn main(rt: HostRuntime) -> io::Result<()> {
    let mut nodes = Nodes::fresh(&rt)?;
    transfers(&rt, &mut nodes)?;
    deadlines(&rt, &mut nodes)
}
