// Two crews, one sheet: paints of blocks that are apart may come in any order. Definitions in specs/, proofs in proofs/. There is no code here.
#![tactic(auto)]
