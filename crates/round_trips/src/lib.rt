#![tactic(auto)]

// What reading and writing frames have to do with each other: no code, the laws in proofs/.
