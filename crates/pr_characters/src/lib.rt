//! The shapes of characters from a file, for a printer with characters of its own.
//!
//! - `reading` reads the lines of a file, and `names` has the line that names each picture.
//! - `pictures` makes the columns of the characters of these lines.
//! - `laws` says that each text has one answer.
#![tactic(auto)]

mod fault;
mod laws;
mod names;
mod pictures;
mod reading;

pub use fault::CharactersFault;
pub use laws::texts_have_one_answer;
pub use reading::read_shapes;
