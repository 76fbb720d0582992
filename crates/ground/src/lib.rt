// No code: exclusive or, and laws on numbers and lists that every layer stands on (specs/Bits.antt, proofs/).
#![tactic(auto)]
