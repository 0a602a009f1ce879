// Window queries: exist, report and select, each a walk in key order over the blocks that meet a window (crate `walk`), which asks the list at each.
#![tactic(auto)]

pub mod calls;
pub mod exist;
pub mod passing;
pub mod report;
pub mod select;
