// The pieces of a record, in place: a chain of cells of a store's bytes, in index order. Who calls has checked that the bytes
// are sound, so every link and every size is in range; a walk ends all the same, on any links, after one step more than
// there are cells. What is read is a value that knows this; a function that writes asks for it, as in the crate records.
// Parameters have the names that they have there.

#![tactic(auto)]

pub mod ack;
pub mod cut;
pub mod held;
pub mod insert;
pub mod link;
pub mod row;
pub mod walk;
