#![tactic(auto)]

// What an accepted hop edit leaves in the buffer: no code, the laws in proofs/.
