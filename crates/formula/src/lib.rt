// The reader of formulas: a text to a term in prefix order, or the first question that it answers with no.
#![tactic(auto)]

mod expected;
pub mod fault;
mod memory;
mod names;
mod parser;
pub mod reader;
