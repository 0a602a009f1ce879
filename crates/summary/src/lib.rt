// The summary beside a list (specification S8.2): the pixel counts of the blocks of one level, counted from the list's leaves.
#![tactic(auto)]

pub mod blocks;
pub mod calls;
pub mod check;
pub mod count;
pub mod counted_list;
pub mod counting;
pub mod kept;
pub mod pass;
pub mod renew;

pub use check::accept;
