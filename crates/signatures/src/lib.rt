// Keys and signatures (document 01, "What is turned back"): `keys` has the test of the key table, 5, `fleet` what a call is given besides a
// message, and `verdicts` the tests of signatures, 14.
#![tactic(auto)]

pub mod fleet;
pub mod keys;
pub mod verdicts;
