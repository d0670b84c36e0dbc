//! Tests of what the system sees and what a sysop reads: the system's clock, the challenges that its random bytes give, standard error
//! as a sink, and a source of lines; and the line of each status.
#![tactic(auto)]

#[cfg(test)]
mod clocks;
#[cfg(test)]
mod dice;
#[cfg(test)]
mod line_sources;
#[cfg(test)]
mod sheets;
#[cfg(test)]
mod statuses;
#[cfg(test)]
mod std_sinks;
