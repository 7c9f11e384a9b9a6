// What the tablet does with the messages that leave: push, the acknowledgements that come, both wakes, and
// the report. A port of message.rs, `push_message` with its wake loop, `handle_message_reply` and
// `message_info`. Each step is handed a sound send store and works on its bytes in place; a refusal changes
// nothing. A record is read by the methods of `record::Leaving`, which knows that it is held; a function that
// writes into a store asks for that with each call, since a write ends what a struct knows of the bytes.

#![tactic(auto)]

pub mod acks;
mod choice;
mod deadline;
mod done;
mod due;
mod init;
mod piece;
pub mod push;
mod record;
pub mod report;
pub mod wake;
