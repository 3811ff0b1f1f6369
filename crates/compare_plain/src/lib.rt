// A second implementation, from document 01 alone: every entry, every position and every earlier key is looked at. It shares nothing with the
// store. Here is what its calls need; each of them answers in eight numbers, since the comparison compares what the C interface gives: [0] the
// refusal's number, 0 if accepted; [1] its place; [2] a kind; [3].. values; unused ones 0.
#![tactic(auto)]

pub mod cells;
pub mod refusal;
pub mod segment;
