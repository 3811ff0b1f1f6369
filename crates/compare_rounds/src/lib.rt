// The calls that are compared, in their order. Nothing here makes one: each is a question that the program asks of both sides, and what the store's
// side came to makes the next. A call goes by its place in its pass, a number that is computed.
#![tactic(auto)]

pub mod answer;
mod changes;
mod images;
pub mod pass;
pub mod question;
mod reads;
