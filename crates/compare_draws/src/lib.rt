// Pseudo-random stores, keys to ask for, and what goes wrong with them: each is made of a round and a step, so that every run draws the same.
#![tactic(auto)]

pub mod dice;
pub mod faults;
pub mod keys;
pub mod small;
pub mod store;
