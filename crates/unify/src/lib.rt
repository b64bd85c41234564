// Unification of two values of one thread, by the classes that the descent makes.
#![tactic(auto)]

pub mod sizes;
pub mod solve;
pub mod solved;
