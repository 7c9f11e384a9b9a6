// The classroom: one tablet and one office over a scripted link, and what is printed of it.

#![tactic(auto)]

mod room;
mod run;
mod show;
mod text;

pub use show::{TEXT, classroom};
