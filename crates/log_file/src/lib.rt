// The file of a log: stored as bytes and loaded again.
#![tactic(auto)]

pub mod check;
pub mod entry;
pub mod head;
pub mod load;
pub mod step;
pub mod store;
