//! The form of a listing, by its first bytes.

ghost use Rattle.std.specs.Prelude.{◌≡◌};
ghost use Rattle.pr_listing.specs.Found.{begins_linked, begins_with_heading, first_printed, found_form, is_blank};

use crate::containers::{address_at, is_p00, is_t64};
use crate::form::ListingForm;
use crate::hints::looks_saved;
use crate::program::count_to_zero;

/// How many bytes are before those of the first line: a load address, a link and a number.
const BEFORE_LINE: usize = 6;

/// Whether bytes begin with a load address and a line of a saved program, and its link is the address
/// after that line.
fn begins_linked(bytes: &[u8]) -> bool
    ensures { result ≡ begins_linked bytes.now }
{
    if bytes.len() < BEFORE_LINE {
        return false;
    }
    let line = &bytes[BEFORE_LINE..];
    let size = count_to_zero(line);
    size < line.len() && address_at(bytes, 2) == address_at(bytes, 0) + size + 5
}

/// Whether a byte is a space or of a line's end.
fn is_blank(b: u8) -> bool
    ensures { result ≡ is_blank b }
{
    matches!(b, b' ' | b'\n' | b'\r')
}

/// The first byte that is not blank.
fn first_printed(bytes: &[u8]) -> Option<u8>
    ensures { result ≡ first_printed bytes.now }
{
    bytes.iter().copied().find(|b| !is_blank(*b))
}

/// Returns whether bytes begin with petcat's heading: their first byte that is no space and no line's end
/// is `;`.
pub fn begins_with_heading(bytes: &[u8]) -> bool
    ensures { result ≡ begins_with_heading bytes.now }
{
    matches!(first_printed(bytes), Some(b';'))
}

/// Finds the form of a listing in its first bytes, for a file whose name does not tell it. A saved
/// program has the load address $0801, or another and a first line that ends where its link says, or it
/// is in a P00 or T64 file; petcat's text begins with its heading, a line with `;`. All else is the text
/// of a script. Nobody types a script that begins in one of these ways: a link needs a byte 0 after it,
/// which a script has only in a remark. A magazine's listing begins as a script does.
pub fn found_form(bytes: &[u8]) -> ListingForm
    ensures { result ≡ found_form bytes.now }
{
    if looks_saved(bytes) || begins_linked(bytes) || is_p00(bytes) || is_t64(bytes) {
        return ListingForm::Program;
    }
    if begins_with_heading(bytes) {
        return ListingForm::Petcat;
    }
    ListingForm::Text
}
