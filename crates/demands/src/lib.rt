// What the house holds the loader to, as theorems: the statements are in specs/Demands.antt, the proofs in proofs/. No code.
#![tactic(auto)]
