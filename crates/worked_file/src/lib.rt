// A worked file that pins the definitions, word by word (specs/Blocks.antt), with its image worked out by hand (specs/Image.antt);
// a file for each refusal from 13 on (specs/Refused.antt); a file whose last entry is split across two blocks (specs/Split.antt).
// What holds of them is stated in specs/Worked.antt and proved in proofs/. No code: the tests and the example load the same words.
#![tactic(auto)]
