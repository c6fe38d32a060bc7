// LM-OTS of RFC 8554, section 4, over SHA-256 with n = 32, widths 4 and 8: signatures and candidate keys, and the keys of sixteen
// leaves side by side.
#![tactic(auto)]

pub mod key;
pub mod leaves;
