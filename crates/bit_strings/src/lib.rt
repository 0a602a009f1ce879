// A list of two features as a pair of bit strings, written and read (specification S18).
#![tactic(auto)]

pub mod bits;
pub mod check;
pub mod fill;
pub mod next;
pub mod pack;
pub mod read;
pub mod write;
