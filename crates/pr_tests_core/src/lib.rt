//! Tests from wires to paper and from statements to wires: the printer, texts of traces, receivers, buses, channels, scripts
//! and whole runs. Each module tests the crate of its name. What the program and the library for C show of these crates is
//! data: cases, rows of tests/c/library, tests/c/example.c and tests/c/exports.c.
#![tactic(auto)]

#[cfg(test)]
mod basic;
#[cfg(test)]
mod bus;
#[cfg(test)]
mod channels;
#[cfg(test)]
mod page;
#[cfg(test)]
mod receiver;
#[cfg(test)]
mod serial;
#[cfg(test)]
mod system;
#[cfg(test)]
mod wire;
