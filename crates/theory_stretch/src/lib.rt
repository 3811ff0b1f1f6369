#![tactic(auto)]

// No code: a part of the segments of an accepted store, and what it reads as.
