// A list changed by a step, as one change (specification S10.3, S12.2): let it shrink where blocks become one leaf, and let every leaf grow to what the step makes of
// it. What it becomes is counted before where there might not be room for it. No stage needs more room than the list before or the list after.
#![tactic(auto)]

mod block_end;
pub mod change;
pub mod grow;
pub mod recount;
mod shrink;
mod slide;
pub mod spread;
pub mod tally;
