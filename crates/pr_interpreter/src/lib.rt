//! Programs in Commodore 64 BASIC, run for the output statements that they perform.
//!
//! A program is run, and the output statements that it performs, with the bytes of their lists, are a
//! script. The machine's numbers are rounded, and nobody here can compare with one. So a number is what
//! is certain of the machine's value, and the rule of everything here is **certain or refused**: a use of
//! a number has an answer if every value that the machine may have gives that answer; otherwise the
//! program is refused with its place.
//!
//! # What is here
//!
//! - `span` has the magnitudes that a value may have, and the span of what the machine may answer
//!   ([`answer`]); `specs/Spans.antt` defines both.
//! - `number` has numbers, a sign and a span, and their products and quotients; `sums`, `orders` and
//!   `whole_numbers` have their sums, their comparisons and INT. `specs/Numbers.antt` defines them. `powers` has square
//!   roots and powers; `specs/Powers.antt` defines them.
//! - `decimals` has the nine digits that are printed of a number, where they are certain, and `printing` their text;
//!   `constants` has the value of a decimal constant.
//! - `lines` has the numbered lines of a program's text, sorted, and the column of a place in it.
//! - `symbols` has the symbols of a line, keywords among them, and `lexemes` its lexemes: `names`, `numerals` with
//!   constants, and `comparisons`. `specs/Symbols.antt` and `specs/Lexemes.antt` define them.
//! - `expressions` has the nodes of expressions, and `reader` reads them from lexemes; `specs/Expressions.antt` defines
//!   how.
//! - `statements` has the statements of a line, `statement_reader` reads them (with `reading`, `targets` and `printed`),
//!   and `program` reads the lines of a text with their statements, each with its place; `specs/Reading.antt`,
//!   `specs/Statements.antt` and `specs/Programs.antt` define how.
//! - `values` has what operators give of two numbers or two strings; `specs/Values.antt` defines it.
//! - `evaluation` has the value of an expression, with `given` (what its parts give), `calls` (what operators and
//!   functions give of them), `functions`, and `memory`, which has variables, arrays and functions of the program;
//!   `specs/Evaluation.antt`, `specs/Functions.antt` and `specs/Memory.antt` define it.
//! - `laws` has what is proved of the definitions: what the machine may answer to a calculation
//!   (`specs/Machine.antt`) is in the number that the calculation gives, for all values in its operands; what is
//!   printed of a number is so for each of its values; the lines of a text are sorted.
//!
//! # How the rest is to be built on it
//!
//! **Statements.** A state is the variables, the arrays, the loops and returns that are open (a stack), the
//! place in DATA, the files, the column of the screen (known or not), and the place of the next statement.
//! `Steps before after performed` is a relation: for each statement a rule says the state after it and the
//! output statement that it performs, if any. No state has two successors. A run is the list of steps from
//! the first state to one that has none: the program's end, END, STOP, a fault or a refusal.
//!
//! **`run_program`.** Its contract cites the relation: the list that it returns is what the steps of the run
//! perform, in order, each with the line that it came from, and how the run ended is what the last state
//! says; a refusal names the first place that the definition refuses; with a limit of steps, the list is
//! that of so many steps. Two laws go above it: a program of the six statements alone, lines in order,
//! performs what `read_script` reads of its text; and every machine that keeps to `specs/Machine.antt`
//! performs the same list, which follows by induction from the laws of numbers here.
#![tactic(auto)]

mod calls;
mod comparisons;
mod constants;
mod decimals;
mod evaluation;
mod expressions;
mod fault;
mod functions;
mod given;
pub mod laws;
mod lexemes;
mod lines;
mod memory;
mod names;
mod number;
mod numerals;
mod orders;
mod powers;
mod printed;
mod printing;
mod program;
mod reader;
mod reading;
mod span;
mod statement_reader;
mod statements;
mod sums;
mod symbols;
mod targets;
mod values;
mod whole_numbers;

pub use constants::{Constant, Tens, value_of};
pub use decimals::{Decimal, Digits, ONES, decimal_of};
pub use evaluation::evaluate;
pub use expressions::{Callee, Node, Operator, Placed};
pub use fault::{NumberFault, ProgramFault};
pub use functions::{
    constant_in, constant_number, front_byte, number_text, solid, whole_to, without_sign,
};
pub use lexemes::{Lexeme, Word, lexemes_of};
pub use lines::{Line, column_of, lines_of};
pub use memory::{
    Array, Arrays, Function, Scope, Variable, array_bytes, array_of, is_clock, is_status, place_of,
    same_name, undimensioned, undimensioned_bytes,
};
pub use names::{Kind, Name};
pub use number::{Number, Sign, product, quotient};
pub use orders::{Order, order_of};
pub use printing::text_of;
pub use program::{ProgramLine, read_program};
pub use reader::{Expression, read_expression};
pub use span::{Span, answer};
pub use statement_reader::read_statements;
pub use statements::{Item, Nodes, Part, PlacedStatement, Statement, Target, Way};
pub use sums::sum;
pub use symbols::Writing;
pub use values::{BasicError, Halt, Stop, Value, of_numbers, of_texts};
pub use whole_numbers::{Whole, floor};
