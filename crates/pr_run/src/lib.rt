//! Runs programs in Commodore 64 BASIC for the output statements that they perform.
//!
//! [`program_of`] reads a text, [`run_program`] runs it: it returns the output statements that the program performs,
//! with the bytes of their lists, each with the line that it came from, and how the run ended. `specs/Runs.antt` says
//! what a run is, as steps from state to state, and `run_program` performs exactly that. A statement is not run where
//! what it does is not certain: the run ends there, with the place.
//!
//! - `programs` has programs with the items of DATA (`data`), `place` the places in them; `ending` says how a run ends,
//!   and `outcome` what it performed.
//! - `state` has the state of a run, with the loops and calls that are open (`opened`).
//! - `worked` works out expressions, and `uses` says what statements make of their values.
//! - `assignments` has LET, DIM and CLR, `jumps` GOTO, GOSUB, RETURN, ON, IF, FOR and NEXT, `items` READ and RESTORE,
//!   `lists` what PRINT writes, and `outputs` OPEN, CLOSE, CMD, PRINT and PRINT#.
//! - `memory` says how much of the machine's memory is taken; `growth` adds to lists; `steps` has one step, with DEF FN
//!   and POKE, and `run` all.
#![tactic(auto)]

mod assignments;
mod data;
mod ending;
mod growth;
mod items;
mod jumps;
mod lists;
mod memory;
mod opened;
mod outcome;
mod outputs;
mod performed;
mod place;
mod programs;
mod run;
pub mod run_laws;
mod state;
mod steps;
mod uses;
mod worked;

pub use data::DataItem;
pub use ending::{Ending, Refusal};
pub use outcome::Outcome;
pub use performed::Performed;
pub use programs::{Program, program_of};
pub use run::run_program;
