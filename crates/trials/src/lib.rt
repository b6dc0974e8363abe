// Trials of the library as a user calls it: cards whose figures, sheets and faults are known beforehand.
#![tactic(auto)]

#[cfg(test)]
mod cards;
#[cfg(test)]
mod tests;
