// A window painted as one step (specification S10.2): its largest blocks, the group that the log gains, the list filled, and the call.
#![tactic(auto)]

pub mod filling;
pub mod paint_window;
pub mod window_blocks;
pub mod window_logging;
