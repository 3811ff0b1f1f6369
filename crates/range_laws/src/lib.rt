#![tactic(auto)]

// No code: what range's answers mean, and the theorems about them.
