// The change of a list: a content put into a block, by a plan, an exchange of records, and the ancestors' bits renewed.
#![tactic(auto)]

pub mod content;
pub mod exchange;
pub mod parents;
pub mod plan;
pub mod planted;
pub mod putting;
pub mod renewing;
