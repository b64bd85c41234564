// The column beside the table: for each node the size of the tree that stands there, one 16-bit number a node.
#![tactic(auto)]

pub mod check;
pub mod renew;
pub mod room;
pub mod sizes;
