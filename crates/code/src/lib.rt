// No code: the rows of RS(255,239) as a set (specs/), and the laws by which rows are encoded and repaired (proofs/).
#![tactic(auto)]
