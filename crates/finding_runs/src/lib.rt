// Rules and waivers (specification S13): the runs over the rules that findings is made of, from where a run stands to what the last answers. Each file uses only
// those above it.
#![tactic(auto)]

pub mod all_rules;
pub mod call;
pub mod one_rule;
pub mod runs;
pub mod state;
pub mod waivers;
