// The store's operations in place: a record is found, opened, compared with an init, restarted, given a state, finished,
// dropped or taken, and chains of cells are freed. They are internal. What is read is a value that knows what the calls
// above have established: a sound store, a held record, a row. A function that writes asks for that with each call, since
// a write ends what a value knows of the bytes. In all of them `store` is the store's bytes, `link` the byte where a link
// stands, `place` the place of a record or a cell, from 1 on, and `row` the byte where a row starts.

#![tactic(auto)]

pub mod clear;
pub mod find;
pub mod finish;
pub mod open;
pub mod release;
pub mod repeat;
pub mod restart;
pub mod restate;
pub mod row;
