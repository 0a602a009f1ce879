// Take back and redo (specification S12): a single entry by a plan, a group as one change of the list.
#![tactic(auto)]

pub mod group;
pub mod planning;
pub mod redo;
pub mod redo_group;
pub mod take_back;
pub mod take_back_group;
