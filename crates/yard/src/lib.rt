// The yard's program, all but its reading and printing (document 01, "The yard's program").
#![tactic(auto)]

pub mod commands;
pub mod line;
pub mod space;
