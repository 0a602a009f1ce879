// Leaf lists (specification S17): a delivery of leaves becomes a list, and a list gives its leaves.
#![tactic(auto)]

pub mod calls;
mod count;
mod features;
mod lay;
mod pick;
