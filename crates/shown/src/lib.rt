// The code of a sheet as text.
#![tactic(auto)]

mod line;
mod listing;

pub use listing::{write_code, write_refused};
