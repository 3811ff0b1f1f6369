#![tactic(auto)]

// No code: what insert's answers mean, and the theorems about them.
