// The sizes of the buffers, by the library's own constants.

use packet::chunk::MessageChunk;
use packet::run;
use rows::message::CUT_BYTES;
use rows::{cell, record};

// A frame, which ends where the largest piece does.
pub(crate) const FRAME: usize = MessageChunk::PIECE + cell::LARGEST;

// The longest message, and what take gives for it: its record, then its data.
pub(crate) const MESSAGE: usize = rows::message::LONGEST_BYTES;

pub(crate) const TAKEN: usize = record::BYTES + MESSAGE;

// The longest run: the longest message is cut, and every piece is sent.
pub(crate) const RUN: usize = MESSAGE / CUT_BYTES * (run::PACKET + MessageChunk::PIECE + CUT_BYTES);

// The largest store.
pub(crate) const STORE: usize = cell::FIRST + cell::BYTES * cell::MOST;

// The longest rule book that a list may have.
pub(crate) const BOOK: usize = 4096;
