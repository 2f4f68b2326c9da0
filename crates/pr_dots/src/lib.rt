//! The dots that the hammer strikes.
//!
//! - `shapes` has this project's own dots of each character, in tables that `tools/shapes` makes, and `character_sets` the dots of the
//!   characters that a printer has; `codes` says which place of a table a code has.
//! - `mark_columns` gives the columns of a mark, and `dots` says which dots a paper has.
//! - `sheets` says how many sheets and lines a paper has, and which rows are on each sheet, where its first row is some lines
//!   below the upper edge; `laws` says where its dots are then.
//! - `scale` says how fine a bitmap is.
#![tactic(auto)]

mod character_sets;
mod codes;
mod dots;
mod laws;
mod mark_columns;
mod scale;
mod shapes;
mod sheets;

pub use character_sets::Shapes;
pub use codes::place_of_code;
pub use dots::has_dot;
pub use laws::lowered_paper_lowers_dots;
pub use mark_columns::{COLUMNS, columns};
pub use scale::Scale;
pub use sheets::{
    SHEET, first_sheet, is_on, last_sheet, lines_of, lowered_y, sheet_count, sheets_of,
};
