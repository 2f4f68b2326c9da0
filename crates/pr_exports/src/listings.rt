//! The text of a script that a listing has.

ghost use Rattle.std.specs.Prelude.{◌≡◌, length};
ghost use Rattle.pr_exports.specs.Asked.{TellsListing};
ghost use Rattle.pr_exports.specs.Listings.{TellsText, answer_for};
ghost use Rattle.pr_exports.specs.Settings.{form_of};

use crate::answer::{Answer, ended, plain, refused};
use crate::settings::form_for;
use pr_cli::End;
use pr_listing::{ListingFault, ListingForm, TextFault, script_text};
use std::alloc::{AllocError, Global};

/// What came of a listing.
#[derive(Clone, Copy, Debug, PartialEq, Eq)]
pub enum Listed {
    /// The text is at the front of the buffer, and has this many bytes.
    Written(usize),
    /// The text has this many bytes, more than the buffer has room for.
    TooSmall(usize),
    /// There is no text, or memory was refused.
    Refused(ListingFault),
}

/// Puts the text of a script that a listing in a form has at the front of a buffer.
fn listing(alloc: Global, bytes: &[u8], form: ListingForm, out: &mut [u8]) -> Listed
    ensures tells { TellsText form bytes.now out.old out.new result }
    ensures length { length out.new ≡ length out.old }
{
    let mut copied = Vec::new(alloc);
    if let Err(AllocError) = copied.extend_from_slice(bytes) {
        return Listed::Refused(ListingFault::NoMemory);
    }
    let text = match script_text(alloc, form, copied) {
        Ok(text) => text,
        Err(fault) => return Listed::Refused(fault),
    };
    let size = text.len();
    if size > out.len() {
        return Listed::TooSmall(size);
    }
    out[..size].copy_from_slice(&text);
    Listed::Written(size)
}

/// What a listing gives, as numbers.
fn answer_for(listed: Listed) -> Answer
    ensures { result ≡ answer_for listed }
{
    match listed {
        Listed::Written(size) => plain(0, size),
        Listed::TooSmall(size) => plain(4, size),
        Listed::Refused(ListingFault::NoMemory) => ended(End::Listing(TextFault::NoMemory)),
        Listed::Refused(fault) => ended(End::Listing(TextFault::Listing(fault))),
    }
}

/// Puts the text of a script that a listing has at the front of the caller's buffer: that of
/// [`pr_listing::script_text`]. `form` is 0 for the text of a script, 1 for a saved program, 2 for petcat's text,
/// 3 for a magazine's listing, 4 for what its first bytes show.
///
/// It is refused where a number means no form, with the listing's fault, where memory was refused, and where the text has more
/// bytes than the buffer has room for, with their number. The buffer is then as it was.
#[unsafe(no_mangle)]
pub extern "C" fn print1525_listing(
    alloc: Global,
    bytes: &[u8],
    form: u8,
    out: &mut [u8],
    answer: &mut Answer,
)
    ensures tells { TellsListing (form_of form) bytes.now out.old out.new answer.new }
    ensures length { length out.new ≡ length out.old }
{
    let Some(form) = form_for(form) else {
        *answer = refused(60, 0);
        return;
    };
    *answer = answer_for(listing(alloc, bytes, form, out));
}
