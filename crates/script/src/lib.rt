// Numbers in decimal: inputs, that of the classroom link and one of a number alone, and what is written.

#![tactic(auto)]

mod decimal;
mod input;

pub use decimal::put_item;
pub use input::{LONGEST, Script, one_number, parse};
