//! Tests of whom a node calls next.
#![tactic(auto)]

#[cfg(test)]
mod next_calls;
