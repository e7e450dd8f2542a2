// The text of a formula: bytes, their classes, and the tokens that they spell.
#![tactic(auto)]

pub mod bytes;
pub mod classes;
pub mod fault;
pub mod lexer;
pub mod token;
pub mod words;
