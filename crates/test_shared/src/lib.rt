//! Tests of a desk behind a gate: two seats of a hub over a store in memory, each with its pass.
#![tactic(auto)]

#[cfg(test)]
mod hubs;
#[cfg(test)]
mod offers;
