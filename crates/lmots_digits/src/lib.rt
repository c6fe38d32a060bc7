// The digits of a message in LM-OTS (RFC 8554, sections 3.1.3, 4.4 and 4.5), and words from bytes.
#![tactic(auto)]

pub mod digits;
pub mod width;
pub mod words;
