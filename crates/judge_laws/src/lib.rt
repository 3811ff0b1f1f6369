#![tactic(auto)]

// No code: what the answers of the check mean (specs/) and the theorems about it (proofs/).
