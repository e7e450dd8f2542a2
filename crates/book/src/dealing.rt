// The dealings with a book, as values.
use crate::outcome::Outcome;

#[derive(Clone, Copy)]
pub enum Dealing {
    // Submits the text between two places.
    Submit(usize, usize),
    File,
    Dismiss,
    Withdraw,
    Show(u16),
    Line(Outcome),
    Derive(u16),
    // Checks so many type records, with so many places, as they stand at the fronts of the memories.
    Check(u16, usize, usize),
}

// What was done, where a dealing was not refused.
#[derive(Clone, Copy)]
pub enum Answer {
    Opened(u16),
    Filed(u16),
    Dismissed,
    Withdrawn(u16),
    Shown(usize),
    Lined(usize),
    Derived(usize),
    Passed,
}
