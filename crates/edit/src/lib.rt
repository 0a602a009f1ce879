// Edits of the list: what is logged, paint and empty; and what every edit does: the first refusals, and the summary counted anew.
#![tactic(auto)]

pub mod decision;
pub mod empty;
pub mod logging;
pub mod paint;
pub mod recount;
