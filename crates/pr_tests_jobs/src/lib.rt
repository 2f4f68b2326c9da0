//! Tests of what no built program and no library for C shows: readers and writers that fail, lack of memory, limits that
//! are the caller's, and values for callers in Rust. All else that the program does with command lines, explanations and
//! recordings is in tests/rows and tests/c/exports.c.
#![tactic(auto)]

#[cfg(test)]
mod cli;
#[cfg(test)]
mod command_line;
#[cfg(test)]
mod explanations;
#[cfg(test)]
mod recordings;
#[cfg(test)]
mod rows;
