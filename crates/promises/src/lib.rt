#![tactic(auto)]

// No code: what is promised, as theorems in plain sight, each proved by citing what is below.
