// What the office does with a packet: init, chunk, done and aborted on its store, and the oldest whole
// message taken from it. A port of message.rs, `handle_message`. Each step is handed a sound store; a
// refusal changes nothing. The store is lent to be written, and each step asks that it is sound:
// a struct of both would be made for each call alone.

#![tactic(auto)]

pub mod aborted;
pub mod chunk;
pub mod done;
pub mod init;
pub mod share;
pub mod take;
