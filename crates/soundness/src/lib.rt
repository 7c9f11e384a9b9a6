// Whether bytes are a sound store, as PROTOCOL's "Stores" asks, decided on any bytes; and setup. The chains are walked with
// marks, so that each record and cell is found in one chain and every link in range before anything that rests on it
// is read; a walk ends after as many steps as there are places, and one more.

#![tactic(auto)]

pub mod chain;
pub mod fresh;
pub mod pieces;
pub mod records;
pub mod sources;
pub mod store;

pub use fresh::setup;
pub use store::sound;
