// Messages on the air: bytes read and walked (document 01, "Commands on the air").
#![tactic(auto)]

pub mod entries;
pub mod read;
pub mod reader;
pub mod values;
