// Table to text.
#![tactic(auto)]

pub mod store;
pub mod write;
