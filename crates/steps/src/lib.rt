// Submit and step once nothing is refused: the phases of document 01's "Steps", with document 02's items 1 and 3, one after another,
// and the phase that confirms.
#![tactic(auto)]

pub(crate) mod confirm;
pub mod phases;
