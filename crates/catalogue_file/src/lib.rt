// Catalogue files: their check, and catalogues that borrow the bytes of a file.
#![tactic(auto)]

pub mod answers;
pub mod check;
pub mod fault;
pub mod file;
mod headed;
mod laid;
pub mod layout;
mod numbers;
pub mod opening;
mod parts;
mod sized;
