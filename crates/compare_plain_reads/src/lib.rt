// The calls that change no store, from document 01 alone: lookup, the check and range. Every position and every used slot is looked at.
#![tactic(auto)]

pub mod looking;
pub mod merge;
