// The hand deck of 01, as theorems: the P cases in specs/Hand.antt, the three blocks in specs/Blocks.antt, and what holds of them
// in proofs/. No code: the load printer runs the blocks.
#![tactic(auto)]
