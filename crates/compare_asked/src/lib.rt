// What is asked of a store, who is asked, and what a side came to.
#![tactic(auto)]

pub mod call;
pub mod side;
