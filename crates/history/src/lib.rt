// The history theorem of paints, takings back and log emptyings: definitions in specs/, proofs in proofs/. There is no code here.
#![tactic(auto)]
