// Tests of what a call is given besides keys and messages (document 01, "What is turned back"): `range` has 1, 2 and 3, `record` 4,
// the record with nothing set, and the answer of opening and of reading a note, `buffers` 6 and 7.
#![tactic(auto)]

pub mod buffers;
pub mod range;
pub mod record;
