// No code: what Hand out of a place in column order answers and writes (document 02, R-8; specs/), and what is proved of it (proofs/). Such a place is judged in crate weighing,
// and its file written in crate restoring.
#![tactic(auto)]
