#![tactic(auto)]

// No code: the cells of a store and its list of segments; over an accepted store lookup says what the plain list says.
