// Histories that outlive the process: calls and rests in any order. Definitions in specs/, proofs in proofs/. There is no code here.
#![tactic(auto)]
