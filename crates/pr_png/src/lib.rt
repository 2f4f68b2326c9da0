//! A paper, or a sheet of it, as a PNG file with compressed data: one to eight pixels for the place of a dot, which is 1/60 by 1/63
//! inch.
//!
//! - `look` says how a picture is drawn and how wide it is; `strips` has the strips of the paper, with their holes.
//! - `marking` puts the dots of a paper on a picture, `packing` makes lines of pixels of it.
//! - `matches` finds bytes that repeat earlier ones, `bits` fills bytes with bits, `deflating` compresses with both.
//! - `checksums` has CRC-32 and Adler-32.
//! - `file` puts the compressed lines of pixels into a file, which `fault` may refuse.
//! - `laws` says that the data of a file hold its lines of pixels, that the pixels determine the dots, and that a paper's picture
//!   has them all.
#![tactic(auto)]

mod bits;
mod checksums;
mod deflating;
mod fault;
mod file;
mod laws;
mod look;
mod marking;
mod matches;
mod packing;
mod strips;

pub use fault::PngFault;
pub use file::{LIMIT, paper_png, sheet_png};
pub use laws::{file_shows_lines, paper_has_all_dots, pixels_tell_dots};
pub use look::Look;
