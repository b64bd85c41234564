// Text to table.
#![tactic(auto)]

pub mod goals;
pub mod items;
pub mod numbers;
pub mod parse;
pub mod read;
pub mod reader;
