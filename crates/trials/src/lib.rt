// Trials of the public calls on examples.
#![tactic(auto)]

#[cfg(test)]
mod reading;
