//! Tests of the turn gate: threads that share one value, and a value that doesn't tell its list.
#![tactic(auto)]

#[cfg(test)]
mod turns;
#[cfg(test)]
mod untold;
