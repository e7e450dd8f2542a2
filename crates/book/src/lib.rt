// The book of formulas: submitted, filed, dismissed, withdrawn, shown, derived and checked.
#![tactic(auto)]

pub mod book;
pub mod carrying;
mod changing;
pub mod dealing;
mod derivation;
pub mod fault;
mod judging;
pub mod outcome;
mod showing;
mod submitting;
pub mod ticket;
