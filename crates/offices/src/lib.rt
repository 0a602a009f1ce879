// The table of waivers that two offices share: its check, the place of a row, the calls that add and remove one, and the rows of one office.
#![tactic(auto)]

pub mod calls;
pub mod check;
pub mod own;
pub mod row;
pub mod rows;
pub mod table;
