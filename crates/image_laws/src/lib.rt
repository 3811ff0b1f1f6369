#![tactic(auto)]

// No code: what the answers of writing and reading an image mean, and the theorems about both.
