// Areas (specification S8): how many pixels of a window have a feature, by the walk over the window, the list's leaves and the summary.
#![tactic(auto)]

pub mod calls;
pub mod measure;
pub mod overlap;
pub mod tally;
