// LMS of one tree (RFC 8554 over SHA-256): the key maker, the signer, and the check.
#![tactic(auto)]

pub mod calls;
mod node;
mod signer;
mod tree;
mod types;
pub mod verify;
