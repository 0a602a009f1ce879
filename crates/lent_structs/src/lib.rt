// Laws alone, for functions that take a lent slice of structs and are walked by hand, as an older kit wanted: locals and chains of steps, slices that are lent on to a
// call and come back, and the call itself. They name no crate of ours.
#![tactic(auto)]
