//! Tests of sessions in threads: two callers at a time, over lines in memory, at the seats of a hub over a store in memory.
#![tactic(auto)]

#[cfg(test)]
mod callers;
#[cfg(test)]
mod closing;
#[cfg(test)]
mod hubs;
#[cfg(test)]
mod serving;
#[cfg(test)]
mod tests;
#[cfg(test)]
mod waits;
