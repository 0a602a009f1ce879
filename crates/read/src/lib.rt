// An accepted list is read: the raster that it is the list of, where a block stands, and the part that holds it.
#![tactic(auto)]

pub mod calls;
pub mod fill;
