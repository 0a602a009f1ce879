// Batch (specification S9): many questions of one list, which is checked once. It begins, answers the questions one by one, and says how many they were.
#![tactic(auto)]

pub mod begin;
pub mod call;
pub mod run;
pub mod step;
