//! Tests of devices on a bus: two printers and a drive that only listens, with a computer that moves as the KERNAL
//! does, or as the talker of pr_bus. What each hears is held against an oracle that is written apart, and the edges of
//! the second against the trace of pr_bus.
//!
//! So that these tests are proved in little time, no function between a test and its parts takes memory or stops: what
//! goes wrong is a flag of the bus, and each test asserts once.
#![tactic(auto)]

#[cfg(test)]
mod bus;
#[cfg(test)]
mod edges;
#[cfg(test)]
mod kernal;
#[cfg(test)]
mod oracle;
#[cfg(test)]
mod party;
#[cfg(test)]
mod profile;
#[cfg(test)]
mod steps;
