//! Words of a command line as they are shown on a terminal.

use std::fmt;
use std::fmt::{Display, Formatter};

/// A text with its control characters escaped, and those that turn the direction of text: none of them reaches a terminal.
#[derive(Clone, Copy)]
pub struct Shown<'a>(pub &'a str);

impl Display for Shown<'_> {
    fn fmt<W: fmt::Write>(&self, f: &mut Formatter<W>) -> fmt::Result {
        for c in self.0.chars() {
            if is_hidden(c) {
                for part in c.escape_default() {
                    f.write_char(part)?;
                }
            } else {
                f.write_char(c)?;
            }
        }
        Ok(())
    }
}

/// Whether a character is shown escaped: a control character, which moves a terminal's cursor, changes its colours and the
/// like, or one of Unicode's controls of the direction of text (Bidi_Control), which show a name as another one.
pub fn is_hidden(c: char) -> bool {
    c.is_control()
        || matches!(c as u32, 0x61c | 0x200e..=0x200f | 0x202a..=0x202e | 0x2066..=0x2069)
}
