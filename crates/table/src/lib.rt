// The node table: two 16-bit numbers a node, kind and number, in preorder.
#![tactic(auto)]

pub mod check;
pub mod closures;
pub mod copy;
pub mod kinds;
pub mod nodes;
pub mod walk;
