// No code: what an institute may rely on, stated over the definitions that the contracts cite (specs/), and proved (proofs/).
#![tactic(auto)]
