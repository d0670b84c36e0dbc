//! Tests of a trial of two nodes.
#![tactic(auto)]

#[cfg(test)]
mod files;
#[cfg(test)]
mod totals;
