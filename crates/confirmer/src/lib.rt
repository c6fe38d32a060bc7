// The accountable confirmer: opening, submit and step.
#![tactic(auto)]

pub mod calls;
pub mod opening;
