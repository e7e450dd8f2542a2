// The desk of a program: lines in, a book over a catalogue, lines out.
#![tactic(auto)]

pub mod plan;
pub mod serve;
