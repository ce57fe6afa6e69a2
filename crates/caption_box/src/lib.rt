// The box: shows of sealed code, and rehearsals of statement records, over any register store.
#![tactic(auto)]

mod access;
mod guards;
pub mod laws;
pub mod rehearsal;
mod seating;
pub mod show;
pub mod tallies;
pub mod types;
