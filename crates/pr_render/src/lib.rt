//! Pictures of pages, for people to look at.
//!
//! - `characters` is the table of the codes. `adding` adds to a text, with words of both formats.
//! - `columns` and `plain` make the lines of [`Format`]'s text.
//! - `drawing` makes the SVG document of the fixed texts in `parts`: `defined` defines each mark once and `uses` has
//!   the elements that name one, `letters` makes the letters of a line, `sheets` a printer's sheet of these, in one
//!   piece or in blocks, and `notes` the lines below the sheets. `single` draws one sheet of 11 inches. What most marks have is ready in
//!   `texts`, tables of `short_text`.
//! - `laws` says what is drawn, without the folds.
//!
//! A further format is a definition in `specs/` and a file in `src/`, and an arm in pr_jobs's `text_in` and
//! `text_in_format`.
#![tactic(auto)]

mod adding;
mod block;
mod characters;
mod columns;
mod defined;
mod drawing;
mod format;
pub mod laws;
mod letters;
mod notes;
mod parts;
mod plain;
mod sheets;
mod short_text;
mod single;
mod texts;
mod uses;

pub use adding::push_small;
pub use characters::character;
pub use drawing::{drawn_of, svg, svg_blocks};
pub use format::{Device, Format, Layout, Look, Part, Size};
pub use plain::text;
pub use single::sheet_svg;
