// Trials of catalogue files: files that are cut, changed or at a limit, and the built-in table as a file.
#![tactic(auto)]

#[cfg(test)]
mod damaged;
#[cfg(test)]
mod drafts;
#[cfg(test)]
mod limits;
#[cfg(test)]
mod table;
