// The reader of cue sheets: text to statement records, and records to text.
#![tactic(auto)]

mod check;
mod cursor;
pub mod laws;
mod level;
mod lexeme;
mod lexer;
pub mod limits;
mod parser;
mod printer;
mod reading;
mod refusal;
mod statement;
pub mod types;
mod word;
mod writer;

pub use check::{is_sheet, loop_count, next_sibling};
pub use printer::{
    example_prints, next_sibling_leads_on, print, print_is_unique, printed_sheet_reads_back,
    read_sheet_prints,
};
pub use reading::read;
pub use word::word_at;
