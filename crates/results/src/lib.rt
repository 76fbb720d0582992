// No code: what it is that a contract allows one result only (specs/), and that each public call's contract does (proofs/).
#![tactic(auto)]
