// The phases of notices and certificates heard: the reply, the first certificate held, and the seats that a conflict makes guilty.
#![tactic(auto)]

pub mod certificate;
pub mod hear;
pub mod reply;
