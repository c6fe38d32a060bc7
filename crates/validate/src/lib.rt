// Refusals (document 01, "What is turned back"), in the order of its table. `calls` has those of each call, with the tests of 8 and of an
// own submission's 9; `message` puts a message's 9 to 14 together; `conflict` has 15. The other tests: 1 to 4, 6 and 7 in crate
// `arguments`, 5 and 14 in `signatures`, 9 to 12 in `forms`.
#![tactic(auto)]

pub mod calls;
pub mod conflict;
mod message;
