//! Tests of the desk with an outbound behind a gate: two seats of a hub over a store on a disk in memory, each with its pass. A session
//! that begins takes the outbound of its peer in.
#![tactic(auto)]

#[cfg(test)]
mod hubs;
#[cfg(test)]
mod offers;
