//! The bus on wires.

mod many_bytes;
mod refusals;
mod room;
pub mod wires;
