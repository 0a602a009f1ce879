// Windows over the edge (specification S7): exist, report, select and area of the part of a dragged window that lies in the raster.
#![tactic(auto)]

pub mod calls;
pub mod clip;
