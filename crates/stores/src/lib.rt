// Register stores: what a store means, and the stores that are built.
#![tactic(auto)]

pub mod decimal;
pub mod flat;
pub mod limits;
pub mod store;
pub mod window;
