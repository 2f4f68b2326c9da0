//! The wire's texts, delays, faults and places, the checker that takes a text in pieces, and refused memory.

mod checker;
mod delays;
pub mod example_trace;
mod faults;
mod growths;
mod places;
mod texts;
