// Examples of inference, run on small terms.
#![tactic(auto)]

#[cfg(test)]
mod tests;
