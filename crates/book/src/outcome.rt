// What became of a submitted formula.
use crate::fault::BookFault;

// It was filed under a number, or refused.
pub type Outcome = Result<u16, BookFault>;
