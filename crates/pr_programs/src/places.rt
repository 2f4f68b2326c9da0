//! The row of a place of a text.

ghost use Rattle.std.specs.Prelude.{◌≡◌, ◌≤◌};
ghost use Rattle.pr_programs.specs.Rows.{row, row_end};

/// Returns how many rows end at a byte: one or none.
fn row_end(after_return: bool, b: u8) -> usize
    ensures value { result ≡ row_end after_return b }
    ensures most { result ≤ 1 }
{
    if b == b'\r' || (b == b'\n' && !after_return) {
        1
    } else {
        0
    }
}

/// Returns the row of a place of a text, the number of bytes before it: rows count from 1, and end with byte 10 or 13,
/// or with 13 and 10.
pub fn row_of(text: &[u8], place: usize) -> usize
    ensures { result ≡ row text.now place }
{
    let front = &text[..place.min(text.len())];
    let mut row = 1;
    let mut after_return = false;
    for b in front {
        row += row_end(after_return, *b);
        after_return = *b == b'\r';
    }
    row
}
