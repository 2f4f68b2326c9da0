//! BASIC scripts and statements: the grammar and its reader, and what a statement gives when it is
//! performed over the channels.
//!
//! [`read_script`] is Ok exactly on the bytes that the grammar of `specs/Grammar.antt` relates to a
//! list of statements, with that list, and otherwise answers the first fault, as
//! `specs/Faults.antt` defines it, or lack of memory. [`perform`] performs one statement:
//! `specs/Statements.antt` says what it gives, and `specs/Runs.antt` what a list of statements gives.
//!
//! `statement` has the types that both halves share. `lexemes`, `numbers`, `lists`, `reader` and
//! `script` are the reader, from a line's lexemes up; `place` finds what is at a place of a text;
//! `session` and `performing` are one statement over the channels; [`laws`] says in the manuals'
//! words what follows from the definitions.
//!
//! The grammar knows no fault. `specs/FaultRules.antt` is the table of faults with their places in a
//! part of a line, `specs/FaultPlaces.antt` says which fault is the first and how many bytes of the
//! text are before it, `specs/Faults.antt` says it at any place; `specs/Limits.antt` has the limits
//! of both. The reader's own words (`Lexing`, `Reading`, `ReadingScripts`) are tied to them by a law.
//! Each function of the reader returns a `Flaw`: the fault, the bytes that were left to read, and how
//! many bytes of the next lexeme are before the place. `read_line` makes the column of it.
#![tactic(auto)]

mod fault;
pub mod laws;
mod lexemes;
mod lists;
mod numbers;
mod performing;
mod place;
mod reader;
mod script;
mod session;
mod statement;

pub use fault::{FaultAt, ScriptFault};
pub use performing::perform;
pub use place::{LineAt, basic_number, faults_tell_their_line, lexeme_at, line_at};
pub use script::{
    STATEMENT_LIMIT, cut_line, each_text_is_a_script_or_has_one_fault, read_script, read_script_at,
    without_return,
};
pub use session::{Session, StatusMode};
pub use statement::{Device, Line, Second, Statement, number_of_second};
