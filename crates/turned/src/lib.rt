// No code: wrong programs and the misreadings of document 01, section 9 (specs/), each turned away by a promise that it breaks or an input on which it differs (proofs/).
#![tactic(auto)]
