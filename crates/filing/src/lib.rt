// The filing table: elements filed from the front of lent memory.
#![tactic(auto)]

pub mod table;
