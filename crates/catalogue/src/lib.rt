// Catalogues of primitives: what every one promises, and the one that is built in.
#![tactic(auto)]

pub mod builtin;
pub mod interface;
pub mod names;
