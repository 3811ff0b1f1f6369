#![tactic(auto)]

// No code: a store as a list of segments, what an insert makes of that list, and the cut as such a list.
