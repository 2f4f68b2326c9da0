//! Files that are read and written by name.
//!
//! [`save`] begins to write a file, which is made beside it with the first byte; [`Saving::keep`] puts the
//! whole text in its place, and [`Saving::discard`] leaves there what was there before. [`Noting`] wraps a reader or a writer and
//! keeps the reason of its last failed call.
//!
//! No contract can say what a file holds. Everything here is over [`std::fs::Files`], so that a test
//! can watch the order of the calls and refuse each of them.
#![tactic(auto)]

mod links;
mod noting;
mod saving;

pub use noting::Noting;
pub use saving::{Saving, Unsaved, save};
