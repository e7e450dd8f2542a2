// A desk for trials of the book: memories, formulas filed at once, and what is printed of an outcome.
#![tactic(auto)]

pub mod desk;
pub mod filing;
pub mod fresh;
pub mod opened;
mod scribbling;
pub mod telling;
