//! Programs in Commodore 64 BASIC as scripts: a program is run, and the output statements that it performs are a
//! script.
//!
//! [`made_script`] runs the program of a text and returns the script, whose lines have the numbers of the program's
//! lines, and how the run ended; or why there is no script, with the row and the column of the text. A run that ends in
//! an error of BASIC has a script: what was performed before. [`is_run`] says of a text of which nobody knows whether
//! it is a script or a program.
//!
//! `specs/Scripts.antt` says what the text of the script is, `specs/Made.antt` what comes of a program, and `pr_run`
//! what a run performs.
//!
//! - `scripts` writes the script of what is performed, `lists` the list of a statement.
//! - `saved` has the text of a saved program ([`typed_program`]).
//! - `typed` reads the names of keys in strings, `made` runs a program, `places` has the row of a place, `fault` says
//!   why there is no script, `errors` has the words of the errors of BASIC.
//! - `form` has the forms of what a script is made of, and `laws` that a script is read as what was performed.
#![tactic(auto)]

mod errors;
mod fault;
mod form;
pub mod laws;
mod lists;
mod made;
mod places;
mod saved;
mod scripts;
mod typed;

pub use errors::error_name;
pub use fault::{BasicFault, Reason};
pub use form::{Form, STEPS, is_run};
pub use made::{Made, Ran, made_script};
pub use saved::typed_program;
pub use scripts::script_text;
