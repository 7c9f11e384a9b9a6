// The packets of the message protocol: what a frame's bytes mean, and the packets that are put out. A port of
// message.rs (header and flags) and of message/init.rs, chunk.rs and done.rs.

#![tactic(auto)]

pub mod chunk;
pub mod done;
pub mod header;
pub mod init;
pub mod label;
pub mod needed;
pub mod reader;
pub mod run;
