#![tactic(auto)]

// No code: what an answer of build means, that it is the only one, and what it leaves (specs/, proofs/).
