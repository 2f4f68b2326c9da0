//! Papers as PDF documents (ISO 32000-1): each dot is a disc where the hammer strikes.
//!
//! - `adding` adds to a text. `marks` says which font and code a mark has.
//! - `used` says which glyphs marks use.
//! - `fonts` makes the objects that all documents have, `glyphs` the fonts and their glyphs.
//! - `runs` makes the strings of a row, and `sheets` what is on a sheet.
//! - `bookmarks` has the names of sheets and their bookmarks, where both printers have printed.
//! - `document` numbers the objects and keeps where each begins, `drawing` makes the document.
//! - `laws` says what the document draws. `parts` has the fixed texts.
#![tactic(auto)]

mod adding;
mod bookmarks;
mod document;
mod drawing;
mod fault;
mod fonts;
mod glyphs;
mod laws;
mod marks;
mod parts;
mod runs;
mod sheets;
mod used;

pub use drawing::{LIMIT, pdf};
pub use fault::PdfFault;
pub use laws::{sheets_draw_dots, sheets_draw_papers};
