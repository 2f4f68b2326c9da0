//! What a command line of the program `print1525` asks for.
//!
//! [`read_task`] reads the words of a command line and returns the [`Task`] that they ask for, a
//! [`Job`] and the files that it reads and writes, or the reason why they ask for none; [`explains`] returns whether the user wants to read more about a
//! refusal. [`read_present`], [`read_delays`] and [`read_status`] read the values of the options that
//! say how a run begins. Nothing here reads an input, runs a script or writes a text. Only this crate
//! and the program's `main` know clap.
//!
//! # Inside
//!
//! - `options` has a row for each option, with its name, default, values and help, and the options of each
//!   subcommand; `specs/Rows` has them once more. `help` has the other texts of the help.
//! - `clap_command` makes the command of these, as clap takes it (`specs/CommandLine`).
//! - `outputs` has what `pages`, `check` and `decode` write.
//! - `option_values` and `delays` give the values of options their meaning (`specs/Options`,
//!   `SignalNames`, `DelayLists`); `parts` cuts their texts.
//! - `values_given` finds the value that words, a file's name or a default give an option, and judges what
//!   goes together.
//! - `command_line` reads the values, in the order in which a bad one is reported, and makes the job of them
//!   (`wanted` in `specs/Jobs`). A new option is a row of `options` and of `Rows`, its meaning in `option_values`
//!   and `Options`, and a line where `command_line` and `Jobs` read it.
#![tactic(auto)]

mod clap_command;
mod command_line;
mod delays;
mod help;
mod option_values;
mod options;
mod outputs;
mod parts;
mod values_given;

pub use command_line::{
    Job, JobFault, Task, bad_value, explains, is_quiet, read_task, subcommands_are_these,
};
pub use delays::{DelayFault, read_delays};
pub use option_values::{read_inverted, read_present, read_status};
pub use options::Opt;
pub use outputs::{CheckOutput, DecodeOutput, Hearing, PagesOutput};
