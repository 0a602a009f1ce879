// The file of a list: stored as bytes and loaded again (specification S15).
#![tactic(auto)]

pub mod bytes;
pub mod check_file;
pub mod head;
pub mod layout;
pub mod load;
pub mod mark;
pub mod records;
pub mod store;
