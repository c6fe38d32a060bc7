// A unit's store: its slots, the places of a certificate's signatures, and the first certificate held.
#![tactic(auto)]

pub mod held;
pub mod slots;
pub mod sources;
