// The table of a book: the terms and type lists of filed formulas, and of the open candidate.
#![tactic(auto)]

mod change;
pub mod entry;
pub mod nodes;
mod places;
mod read;
pub mod source;
pub mod table;
#[cfg(test)]
mod tests;
