// A step of an edit that touches many blocks, as the code is told it (specification S11.9): a window to be filled, or entries of the log to be taken back or
// painted again; and what it does to a leaf.
#![tactic(auto)]

pub mod deed;
pub mod direction;
pub mod doing;
mod entries;
mod fill;
pub mod meeting;
pub mod run;
