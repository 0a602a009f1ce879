// The laws of the definitions: no function, and nothing that a promise cites.
#![tactic(auto)]
