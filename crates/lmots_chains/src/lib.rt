// Chains of LM-OTS (RFC 8554, section 4.3 and Appendix A), one by itself or sixteen side by side. A value of 32 bytes is held
// as eight words and the key identifier as four, so that a chain step is one compression of a prepared block.
#![tactic(auto)]

pub mod chain;
pub mod sixteen;
