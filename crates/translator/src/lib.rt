// From the statements of a sheet to its sealed jump code.
#![tactic(auto)]

pub mod draft;
mod flatten;
pub mod laws;
mod lay;
pub mod limits;
pub mod load;
pub mod types;
