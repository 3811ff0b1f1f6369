#![tactic(auto)]

// No code: what insert leaves of an accepted store, after one call and after any list of them; and what build leaves.
